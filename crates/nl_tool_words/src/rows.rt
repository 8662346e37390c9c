//! The words of the program, a row each, in the order of the help: those that look and change nothing, those that change a log, and
//! `replay`.
use crate::shape::{Given, Value, WordRow};
use crate::values::value;

// Rows of words: the name, what it takes, and the texts of its help, the last of which WAITS ends.
macro_rules! rows {
    ($($name:literal [$($takes:ident)*] => $about:literal, $after:literal $($waits:ident)?;)+) => {
        [$(WordRow { name: $name, about: $about, after: after!($after $($waits)?), takes: &[$(value!($takes)),*] }),+]
    };
}

macro_rules! after {
    ($text:literal) => { $text };
    ($text:literal WAITS) => { concat!($text, "\n\nNo build by Ninja may change LOG meanwhile; another nlog waits.") };
}

pub const WORDS: [WordRow; 21] = rows! {
    "show" [OPTIONAL_LOG VERSION] =>
        "Prints the last entry of each output, in the order in which the outputs first appear", "\
One line for each output: START, END, MTIME, NAME and HASH with a tab between neighbours.

START  when its command began, in milliseconds since the build began
END    when its command ended, in milliseconds since the build began
MTIME  the time stamp that the build recorded, in the unit of its file system: Ninja on Linux
       writes nanoseconds since 1970
NAME   the output
HASH   the hash of the command, in hexadecimal";
    "check" [OPTIONAL_LOG VERSION] =>
        "Prints what a log holds: version, total, unique, skipped, torn, due", "\
version  the log's version: 4 or 5; 6 or 7 with `--log-version`
total    how many of its lines are entries
unique   how many outputs these entries have
skipped  how many whole lines after the first are no entries
torn     how many bytes stand after the last newline
due      `yes` where a build would recompact the log, else `no`";
    "hash" [COMMAND HASH_VERSION] =>
        "Prints the hash of a command as a log holds it, in hexadecimal", "";
    "entries" [OPTIONAL_ANY_LOG AUTO_VERSION MISSING_OK] =>
        "Prints each entry, older ones included, in the order of the file", "\
The lines are those of `show`, which has the last entry of each output alone. They are printed while
LOG is read, so where a read fails, or LOG is larger than a log may be, the first ones were printed.
The entry that was written last is printed by

  nlog entries .ninja_log | tail -n 1";
    "damage" [OPTIONAL_ANY_LOG AUTO_VERSION MISSING_OK] =>
        "Prints a line for each line that is no entry; status 3 where there is one", "\
One line for each: LINE, WHAT, LENGTH, OUTPUT and FIRST with a tab between neighbours.

LINE    its number; 1 is the first line of LOG, which is told only where it is torn
WHAT    `skipped`: it is no entry; `long`: it has more than 262143 bytes; `torn`: the bytes after
        the last newline
LENGTH  its bytes, without the newline
OUTPUT  the output of the entry at the line's end, also where that was written after a torn one;
        else `-`
FIRST   the output that Ninja takes the line for an entry of, between the third tab and the
        fourth, as that of the torn line; else `-`

Status: 0 where nothing is printed, 3 where there is damage. `nlog mend` repairs LOG, and has Ninja make
again each output that a damaged line may be about.";
    "doubt" [OPTIONAL_ANY_LOG AUTO_VERSION] =>
        "Prints the outputs whose files aren't as a log says; status 3 where there is one", "\
Run it in the folder of the build: it looks at the file of each output. A crash can take the line of a
command and leave its file, and then an older entry passes for it. One line for each output, by its
last entry: WHAT and NAME with a tab between them.

WHAT  `newer`: the file was written after what the entry says, so the entry isn't of the command
      that wrote it; `unsure`: it may have been; `missing`: there is no file; `directory`: the output
      is one, so its time says nothing; `no-time`: the entry has no time; `unknown`: the file can't be
      looked at
NAME  the output

`nlog mend` has Ninja make again those that are newer, and `nlog mend --all` those that are unsure, too.

Status: 0 where nothing is printed, 3 where something is. A LOG that is missing is refused.";
    "builds" [OPTIONAL_ANY_LOG AUTO_VERSION MISSING_OK TABS] =>
        "Prints a line for each build that a log tells of: what it ran, and how long", "\
One line for each, the oldest first: NUMBER, COMMANDS, OUTPUTS, WALL, TOTAL, BORDERS, and after
`again` TAKEN, with a tab between neighbours.

NUMBER    its number, from 1
COMMANDS  how many commands ended in it
OUTPUTS   how many outputs these made
WALL      milliseconds from the first START to the last END
TOTAL     the sum of the commands' times, in milliseconds; TOTAL / WALL ran at a time
BORDERS   `sure`; `unsure`: it may have begun or ended elsewhere; `again`: LOG was written anew since,
          as by `ninja -t recompact`, `cmake` or `nlog repair`, so the build was found by its time
          stamps, and may be wrong
TAKEN     how many of its outputs aren't counted at most, because later builds made them again

The last build is printed by

  nlog builds .ninja_log | tail -n 1";
    "summary" [OPTIONAL_ANY_LOG AUTO_VERSION MISSING_OK BUILD ALL KIND LINES GRAPH JOBS TABS] =>
        "Prints how long a build took, how much ran at a time, and its slowest commands", "\
A line for each of these, with a tab after its name:

commands    how many commands ended in it
outputs     how many outputs these made
wall        milliseconds from the first START to the last END
total       the sum of the commands' times, in milliseconds
busy        milliseconds in which at least one command ran
alone       milliseconds in which exactly one ran
parallel    how many ran at a time on average: total / wall, rounded down
slowest     the command that took the longest: its milliseconds, and its first output
again       if the build is `again` in `builds`: its TAKEN
unfinished  if a command didn't end: how many outputs wait for one

Two lists of commands follow, and two of kinds of commands, the largest first:

by-time, by-weight              TIME, WEIGHTED and the first output of a command
kinds-by-time, kinds-by-weight  how many commands are of a kind, their TIME and WEIGHTED, and the kind

TIME is in milliseconds. In WEIGHTED a millisecond in which k commands ran counts 1/k. The kind is that
of the first output: its extension with the dot, or by RULE its folder with the `/`, or `(none)`.

With `--graph` the critical path follows, the commands that waited for each other the longest:

critical-path  how long its commands took together, in milliseconds
on-path        of each that took any time, in order: TIME, START, END and output
not-in-graph   if FILE lacks commands of the build: how many, and their TIME
gain           of the commands on the path that took the longest: how much shorter the path is if the
               command takes half, and its output
estimate       of each N of `--jobs`: N, how long the build would take with N commands at a time, and
               what no order of them comes below

If LOG has fewer builds than BUILD, a line `builds` tells how many it has.";
    "compare" [OLD NEW AUTO_VERSION MISSING_OK LINES AT_LEAST TABS] =>
        "Prints which commands are new, gone, changed, slower and faster in another log", "\
It compares the last entry of each output, by command. `hashes` tells whether hashes were compared, and
seven lines `total` have CLASS, COUNT, DIFFERENCE, BEFORE and AFTER. The commands of each class but `same`
follow, the largest differences first: CLASS, DIFFERENCE, BEFORE, AFTER and OUTPUT.

CLASS       `new`: NEW alone has the command; `gone`: OLD alone; `changed`: it has another hash;
            `slower`, `faster`, `same`: it has the same hash; `unfinished`: it didn't end in one of both
COUNT       how many commands are of the class
DIFFERENCE  AFTER - BEFORE
BEFORE      milliseconds that the command took in OLD, 0 if it isn't there; of a total their sum
AFTER       the same in NEW
OUTPUT      the first output of the command

Logs of version 7 have other hashes than older ones: between these nothing is `changed`.";
    "trace" [OPTIONAL_ANY_LOG AUTO_VERSION MISSING_OK BUILD ALL] =>
        "Prints a build as JSON for a trace viewer: a lane for what ran beside others", "\
A JSON array of events in Chrome's format, which https://ui.perfetto.dev and chrome://tracing open:

  nlog trace .ninja_log > trace.json

\"ph\":\"M\"  the build: \"pid\" is its number in `builds`; \"args\" has \"rewritten\", true if it is `again`
          there, and then \"taken\"
\"ph\":\"X\"  a command: \"tid\" is its lane, \"ts\" when it began, in microseconds from the first START of
          the build, \"dur\" how long it took, \"name\" its first output; \"args\" has all outputs, and HASH
\"ph\":\"C\"  how many commands run at \"ts\": for each command as it begins, and as it has ended

No lane has two commands at one time. With `--all` each build begins as the one before it has ended. A
byte that isn't UTF-8 is shown as U+FFFD. If LOG has no entry, the array is empty.";
    "picture" [OPTIONAL_ANY_LOG AUTO_VERSION MISSING_OK BUILD ALL DRAWN_GRAPH] =>
        "Draws a build as SVG: a bar for each command, and how many ran at a time", "\
One SVG file, which each browser shows:

  nlog picture .ninja_log > build.svg

Each command is a bar in a lane, and no lane has two commands at one time. Hold the mouse over a bar: it
tells the first output, how many more there are, how long the command took, and when it began, in seconds
from the first START of the build. The colour is that of its kind, by the first output's extension; the
legend tells each kind's part of the time. Below are the curve of how many commands ran, and the ten that
took the longest. With `--graph` the commands of the critical path have an outline. With `--all` each
build begins as the one before it has ended.

Neighbours in a lane that are narrower than half a pixel share a bar, in the colour of the first. A byte
that isn't UTF-8, or that XML can't have, is shown as U+FFFD.";
    "hash-file" [OPTIONAL_FILE HASH_VERSION] =>
        "Prints the hash of a command that stands in a file: of each of its bytes", "\
A newline at the end of FILE is a byte of it, so a command that has none is hashed by

  printf %s \"$command\" | nlog hash-file";
    "mend" [MENDED_LOG FOLDER DRY_RUN UNSURE_TOO] =>
        "Has Ninja make each output anew that a log can't vouch for; run it after a crash", "\
It looks at LOG and at the files of its outputs, repairs LOG, and changes the entries of the outputs
that can't be trusted, so that no command passes for them. It removes no file, and changes none but
LOG, in one step. One line for each of these outputs, WHY and NAME with a tab between them:

WHY   `damaged`: a damaged line of LOG may be about it; `newer`: its file was written after what LOG
      says; `unsure`: that may be so, as of a directory, and it is left alone without `--all`
NAME  the output

Status: 0 where LOG was well or is missing, 3 where a line is printed. Before a build it is run by

  nlog mend || test $? = 3

If LOG has entries, and none of its outputs is there, it is refused: run it in the folder of the
build, or name that by `-C`." WAITS;
    "record" [LOG START END MTIME NAME RECORDED_COMMAND VERSION] =>
        "Adds one entry to a log; prints nothing", "\
The log is made where it is missing: one of version 5, or of 6 for Ninja 1.12 or 7 for 1.13 where
`--log-version` has that number. START and END are from -2147483648 to 2147483647, MTIME is a 64-bit
number. A value that begins with `-` stands after `--`, as in

  nlog record -- .ninja_log -1 2 3 out 'cc out.c'" WAITS;
    "recompact" [LOG KEEP VERSION] =>
        "Rewrites a log with the last entry of each output that KEEP names; prints nothing", "\
An empty line of KEEP says nothing, and an empty KEEP drops every entry; `nlog prune` keeps what a
build by Ninja has. The new log is written to LOG.recompact, and renamed over LOG." WAITS;
    "restat" [LOG TIMES VERSION] =>
        "Rewrites a log with the time stamps that TIMES gives; prints nothing", "\
An empty line of TIMES says nothing. The last line of a name counts, and names that the log lacks are
passed over; `nlog retime` takes the time stamps of the outputs' files. The new log is written to
LOG.recompact, and renamed over LOG." WAITS;
    "prune" [ANY_LOG TARGETS OWN_VERSION] =>
        "Rewrites a log with the last entry of each output that a build has; prints nothing", "\
It keeps the targets that TARGETS names, and each output whose file is there, as Ninja does. TARGETS is
read first; the names are those of the folder in which you run it. If LOG is damaged, it prints what
`damage` prints, ends with status 3 and changes nothing. TARGETS without a target is refused, since
Ninja failed then.

  ninja -t targets all > targets && nlog prune .ninja_log targets" WAITS;
    "retime" [ANY_LOG OWN_VERSION] =>
        "Rewrites a log with the time stamps that the outputs' files have; prints nothing", "\
An output without a file keeps its time stamp, and so does a directory. So does an output whose command
didn't end: with another time stamp, Ninja would take it for done. The names are those of the folder in
which you run it. If LOG is damaged, it prints what `damage` prints, ends with status 3 and
changes nothing." WAITS;
    "repair" [ANY_LOG OWN_VERSION MISSING_OK] =>
        "Rewrites a log with the last entry of each output; prints nothing", "\
What is torn, skipped or stale is gone after it, version 4 is 5, and what a device forgot is written
anew. The new log is written to LOG.recompact, and renamed over LOG. With `--missing-ok` a LOG that is
missing is made: one of version 5, or of 6 for Ninja 1.12 or 7 for 1.13 where `--log-version` has that
number. An output whose entry was damaged has an older entry then, or none, and Ninja may take a stale file
for good: `nlog mend` repairs LOG, too, and has Ninja make such outputs again." WAITS;
    "replay" [OPTIONAL_SCRIPT] =>
        "Runs the events of a script on a log in memory, and prints the replies and that log", "";
    "apply" [ANY_LOG LINES_SCRIPT OWN_VERSION] =>
        "Answers lines that ask for changes and entries, one after another, on one open log", "\
Each line is answered before the next is read. There is a tab before each value:

open [NAME ..]                    opens LOG, which is made where it is missing; where it is due it
                                  keeps these names alone, and all of them where none is given
record START END MTIME NAME HASH  adds an entry
begin MOMENT HASH NAME ..         says that the command of this hash is to run, so that no crash
                                  brings back what these outputs had
sync                              makes what was recorded durable
recompact [NAME ..]               rewrites LOG with the last entry of each output, as `open` keeps it
restat [MTIME NAME ..]            rewrites LOG with these time stamps
stop                              makes what was recorded durable, and closes LOG
get NAME                          answers the last entry of NAME, or `none`
hash COMMAND                      answers the hash that LOG has of a command
table                             answers the last entry of each output, a line each, and then `end`
distrusted                        before `open`: answers the same of each output that a damaged line
                                  may be about, whose file is to be removed then

The others are answered `ok`, or why they were not done, as `S8 Fault`; any other line `bad line`.
A LOG that is missing is made one of version 5, or of 6 for Ninja 1.12 or 7 for 1.13 where
`--log-version` has that number. The last entry of an output is asked for by

  printf 'open\\nget\\tapp.o\\n' | nlog apply .ninja_log" WAITS;
};
