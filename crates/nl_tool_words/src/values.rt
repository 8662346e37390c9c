//! The values, options and flags that the words take, each with its text of the help.

// A value by its name in the rows of the words: that of the command line, how it is given, and its text.
macro_rules! value {
    (OPTIONAL_LOG) => {
        value!("LOG" Given::Place => "A build log of Ninja, version 4 or 5; 6 or 7 with `--log-version`; standard input where it is left out")
    };
    (LOG) => { value!("LOG" Given::Required => "A build log of Ninja, version 4 or 5; 6 or 7 with `--log-version`") };
    (OPTIONAL_ANY_LOG) => { value!("LOG" Given::Place => "A build log of Ninja, version 4 to 7; standard input where it is left out") };
    (ANY_LOG) => { value!("LOG" Given::Required => "A build log of Ninja, version 4 to 7") };
    (MENDED_LOG) => { value!("LOG" Given::Place => "A build log of Ninja, version 4 to 7; `.ninja_log` in DIR where it is left out") };
    (OLD) => { value!("OLD" Given::Required => "The log of before, version 4 to 7") };
    (NEW) => { value!("NEW" Given::Required => "The log of after, version 4 to 7") };
    (COMMAND) => { value!("COMMAND" Given::Required => "The command's text, as one word") };
    (RECORDED_COMMAND) => { value!("COMMAND" Given::Required => "The command's text, as one word; its hash is recorded") };
    (OPTIONAL_FILE) => { value!("FILE" Given::Place => "The file; standard input where it is left out") };
    (START) => { value!("START" Given::Required => "When the command began, in milliseconds") };
    (END) => { value!("END" Given::Required => "When the command ended, in milliseconds") };
    (MTIME) => { value!("MTIME" Given::Required => "The time stamp of the output") };
    (NAME) => { value!("NAME" Given::Required => "The name of the output") };
    (KEEP) => { value!("KEEP" Given::Required => "A file with the name of one output a line") };
    (TIMES) => { value!("TIMES" Given::Required => "A file with a time stamp, a tab and a name a line") };
    (TARGETS) => { value!("TARGETS" Given::Place => "What `ninja -t targets all` prints; standard input where it is left out") };
    (OPTIONAL_SCRIPT) => { value!("SCRIPT" Given::Place => "The script; standard input where it is left out") };
    (LINES_SCRIPT) => { value!("SCRIPT" Given::Place => "A file with the lines; standard input where it is left out") };
    (VERSION) => {
        value!("log-version" Given::Long("VERSION") => "5, 6 or 7: the version of LOG; auto: the one that its first line names; 4 or 5 where it is left out")
    };
    (HASH_VERSION) => {
        value!("log-version" Given::Long("VERSION") => "5, 6 or 7: the version of the logs that hold the hash; auto: 5, as where it is left out")
    };
    (AUTO_VERSION) => {
        value!("log-version" Given::Long("VERSION") => "auto alone: the version that LOG's first line names, as where it is left out")
    };
    (OWN_VERSION) => {
        value!("log-version" Given::Long("VERSION") => "5, 6 or 7: the version of LOG; auto: the one that its first line names, as where it is left out")
    };
    (MISSING_OK) => { value!("missing-ok" Given::Flag => "Takes a LOG that is missing for an empty one") };
    (BUILD) => {
        value!("build" Given::Long("BUILD") => "The number of a build in `builds`; left out, the last that made more than `build.ninja`")
    };
    (ALL) => { value!("all" Given::Flag => "Tells of all builds, one after another, with the last entry of each output alone") };
    (KIND) => {
        value!("kind" Given::Long("RULE") => "What a kind goes by: extension, folder, top (the first folder), or work (what its command does); left out, extension, or work at a terminal")
    };
    (LINES) => { value!("lines" Given::LetterLong('n', "N") => "How many lines a list has at most: 10 where it is left out, 0 for none") };
    (GRAPH) => {
        value!("graph" Given::Long("FILE") => "What `ninja -t graph` prints: the critical path is told too; `-` is standard input")
    };
    (DRAWN_GRAPH) => {
        value!("graph" Given::Long("FILE") => "What `ninja -t graph` prints: the critical path has an outline; `-` is standard input")
    };
    (JOBS) => {
        value!("jobs" Given::Long("LIST") => "Numbers with commas: estimates by the graph how long the build takes with so many commands at a time")
    };
    (AT_LEAST) => { value!("at-least" Given::Long("MS") => "A command whose times differ by less than MS milliseconds is `same`") };
    (TABS) => { value!("tabs" Given::Flag => "Puts a tab between fields at a terminal too, in place of columns") };
    (FOLDER) => {
        value!("folder" Given::Letter('C', "DIR") => "The folder of the build, as for Ninja: where it is left out, the one in which you run it")
    };
    (DRY_RUN) => { value!("dry-run" Given::Flag => "Prints the same, and changes nothing") };
    (UNSURE_TOO) => { value!("all" Given::Flag => "Has Ninja make those anew, too, that may be well") };
    (VERBOSE) => {
        value!("verbose" Given::LetterFlag('v') => "Says which file or value a refusal is of, and why; also that LOG is missing, or locked")
    };
    ($id:literal $given:expr => $help:literal) => { Value { id: $id, given: $given, help: $help } };
}

pub(crate) use value;
