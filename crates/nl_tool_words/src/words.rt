//! The word that a command line names, with its values.
ghost use Rattle.std.specs.Prelude.{◌≡◌, is_some, true};
ghost use Rattle.clap.specs.Words.{first_of, found_of, rows_of, subcommand_rows_of};
ghost use Rattle.nl_tool_words.specs.CommandLine.{HasEach, HasValues, IsChosen, IsComplete, IsGiven, IsName, IsSaid, IsThere, is_set_in, name_of, required_of};

use clap::ArgMatches;

/// A word that reads a log which tells its version, and prints what it finds.
#[derive(Clone, Copy, Debug, PartialEq, Eq)]
pub enum Reading {
    Entries,
    Damage,
    Doubt,
    Builds,
    Summary,
    Trace,
    Picture,
}

/// What a word may choose: nothing that it has no option for.
#[derive(Clone, Copy, PartialEq, Eq)]
pub struct Choices<'a> {
    /// The number of the build that it tells of.
    pub build: Option<&'a str>,
    /// Whether it tells of all builds, and not of one; whether `mend` makes those anew, too, that may be well.
    pub all: bool,
    /// The rule by which kinds are told apart: `extension`, `folder`, `top` or `work`.
    pub kind: Option<&'a str>,
    /// How many lines a list has at most.
    pub lines: Option<&'a str>,
    /// The graph by which the critical path is told too.
    pub graph: Option<&'a str>,
    /// How many commands run at a time in the builds that are reckoned.
    pub jobs: Option<&'a str>,
    /// How many milliseconds a difference has at the least.
    pub least: Option<&'a str>,
    /// The folder in which the outputs are.
    pub folder: Option<&'a str>,
    /// Whether nothing is changed.
    pub dry_run: bool,
}

/// A word that changes a log which tells its version.
#[derive(Clone, Copy, Debug, PartialEq, Eq)]
pub enum Changing {
    /// `recompact` by the targets of a build, which FILE has.
    Prune,
    /// `restat` by the files.
    Retime,
    Repair,
    /// FILE is the script.
    Apply,
}

/// What `record` adds to LOG.
#[derive(Clone, Copy, PartialEq, Eq)]
pub struct NewEntry<'a> {
    pub log: &'a str,
    pub start: &'a str,
    pub end: &'a str,
    pub mtime: &'a str,
    pub name: &'a str,
    pub command: &'a str,
}

/// A word of the program with its values, as they were written.
#[derive(Clone, Copy, PartialEq, Eq)]
pub enum Words<'a> {
    /// Also what a command line without a command means.
    Show(Option<&'a str>),
    Check(Option<&'a str>),
    Hash(&'a str),
    HashFile(Option<&'a str>),
    Read(Reading, Option<&'a str>, Choices<'a>),
    /// OLD and NEW.
    Compare(&'a str, &'a str, Choices<'a>),
    Record(NewEntry<'a>),
    /// LOG and KEEP.
    Recompact(&'a str, &'a str),
    /// LOG and TIMES.
    Restat(&'a str, &'a str),
    /// LOG, and what is read beside it: of a file, or of standard input.
    Change(Changing, &'a str, Option<&'a str>),
    Mend(Option<&'a str>, Choices<'a>),
    Replay(Option<&'a str>),
}

pub fn words_in<'a>(matches: &ArgMatches<'a>) -> Words<'a>
    requires { IsComplete (subcommand_rows_of matches.now) }
    ensures value { IsSaid result (subcommand_rows_of matches.now) }
{
    match matches.subcommand() {
        Some((name, inner)) => words_of(name, inner),
        None => Words::Show(None),
    }
}

fn words_of<'a>(name: &str, inner: &ArgMatches<'a>) -> Words<'a>
    requires named { IsName name.now }
    requires whole { HasEach (required_of name.now) (rows_of (found_of inner.now)) }
    ensures name { name_of result ≡ name.now }
    ensures values { HasValues result (rows_of (found_of inner.now)) }
{
    let (log, choices) = (optional(inner, "LOG"), choices_of(inner));
    match name {
        "check" => Words::Check(log),
        "hash" => Words::Hash(value(inner, "COMMAND")),
        "entries" => Words::Read(Reading::Entries, log, choices),
        "damage" => Words::Read(Reading::Damage, log, choices),
        "doubt" => Words::Read(Reading::Doubt, log, choices),
        "builds" => Words::Read(Reading::Builds, log, choices),
        "summary" => Words::Read(Reading::Summary, log, choices),
        "compare" => Words::Compare(value(inner, "OLD"), value(inner, "NEW"), choices),
        "trace" => Words::Read(Reading::Trace, log, choices),
        "picture" => Words::Read(Reading::Picture, log, choices),
        "hash-file" => Words::HashFile(optional(inner, "FILE")),
        "mend" => Words::Mend(log, choices),
        "record" => Words::Record(NewEntry {
            log: value(inner, "LOG"),
            start: value(inner, "START"),
            end: value(inner, "END"),
            mtime: value(inner, "MTIME"),
            name: value(inner, "NAME"),
            command: value(inner, "COMMAND"),
        }),
        "recompact" => Words::Recompact(value(inner, "LOG"), value(inner, "KEEP")),
        "restat" => Words::Restat(value(inner, "LOG"), value(inner, "TIMES")),
        "prune" => Words::Change(
            Changing::Prune,
            value(inner, "LOG"),
            optional(inner, "TARGETS"),
        ),
        "retime" => Words::Change(Changing::Retime, value(inner, "LOG"), None),
        "repair" => Words::Change(Changing::Repair, value(inner, "LOG"), None),
        "apply" => Words::Change(
            Changing::Apply,
            value(inner, "LOG"),
            optional(inner, "SCRIPT"),
        ),
        "replay" => Words::Replay(optional(inner, "SCRIPT")),
        _ => Words::Show(log),
    }
}

fn choices_of<'a>(inner: &ArgMatches<'a>) -> Choices<'a>
    ensures { IsChosen result (rows_of (found_of inner.now)) }
{
    Choices {
        build: optional(inner, "build"),
        all: is_set(inner, "all"),
        kind: optional(inner, "kind"),
        lines: optional(inner, "lines"),
        graph: optional(inner, "graph"),
        jobs: optional(inner, "jobs"),
        least: optional(inner, "at-least"),
        folder: optional(inner, "folder"),
        dry_run: is_set(inner, "dry-run"),
    }
}

fn is_set(inner: &ArgMatches<'_>, id: &str) -> bool
    ensures { result ≡ is_set_in id.now (rows_of (found_of inner.now)) }
{
    matches!(optional(inner, id), Some("true"))
}

pub fn optional<'a>(matches: &ArgMatches<'a>, id: &str) -> Option<&'a str>
    ensures { IsGiven id.now (rows_of (found_of matches.now)) result }
{
    matches.get_str(id)
}

fn value<'a>(matches: &ArgMatches<'a>, id: &str) -> &'a str
    requires { is_some (first_of id.now (rows_of (found_of matches.now))) ≡ true }
    ensures { IsThere id.now (rows_of (found_of matches.now)) result }
{
    matches.get_str(id).unwrap()
}
