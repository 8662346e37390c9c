//! What a command line says, read by `clap`.
ghost use Rattle.std.specs.Prelude.{◌≡◌, codes, is_some, map, option_map, string_bytes, IfErr, IfOk, IfSome};
ghost use Rattle.clap.specs.{Kinds.{or_else}, Words.{kind_of, subcommand_rows_of, FailsBy}};
ghost use Rattle.nl_tool_words.specs.CommandLine.{IsAsked, IsSaid, choice_fault, entered_of, fault_in, given_in, input_fault, is_flagged, is_version_for, jobs_fault, path_in_place, tells_version, version_fault, version_id, version_text};

use crate::shape::nlog_command;
use crate::words::{Words, optional, words_in};
use clap::error::ErrorKind;
use clap::{ArgMatches, Error};
use std::alloc::Global;

/// What a command line says: a command with its values, and its options.
#[derive(Clone, Copy, PartialEq, Eq)]
pub struct CommandLine<'a> {
    pub words: Words<'a>,
    /// The version of the log, where the command line asks for one.
    pub version: Option<AskedVersion>,
    /// Whether the reason of a refusal is to be said.
    pub verbose: bool,
    /// Whether a log that is missing is taken for an empty one, by the words that else refuse it.
    pub missing_ok: bool,
    /// Whether tabs stand between fields at a terminal too.
    pub tabs: bool,
}

/// The version of logs that the option `--log-version` names.
#[derive(Clone, Copy, Debug, PartialEq, Eq)]
pub enum AskedVersion {
    /// Version 5, and 4 beside it.
    Five,
    Six,
    Seven,
    /// The one that the log's first line names: 5 where there is none.
    Auto,
}

/// Reads a command line, of which the first word is the program's name.
///
/// Help and the version of the program are an `Err` too: its text is what was asked for.
pub fn read_words<'a>(alloc: Global, words: &'a [String]) -> Result<CommandLine<'a>, Error>
    ensures value { IfOk result (λ line. IsSaid line.words (entered_of (map string_bytes words.entry.now))) }
    ensures version { IfOk result (λ line. IsAsked line.version (given_in version_id (entered_of (map string_bytes words.entry.now)))) }
    ensures verbose { IfOk result (λ line. line.verbose ≡ is_flagged (codes "verbose") (entered_of (map string_bytes words.entry.now))) }
    ensures missing_ok { IfOk result (λ line. line.missing_ok
        ≡ is_flagged (codes "missing-ok") (entered_of (map string_bytes words.entry.now))) }
    ensures tabs { IfOk result (λ line. line.tabs ≡ is_flagged (codes "tabs") (entered_of (map string_bytes words.entry.now))) }
    ensures accepts { FailsBy (fault_in (map string_bytes words.entry.now)) result }
{
    let matches = nlog_command(alloc)?.try_get_matches_from(words)?;
    let version = version_in(alloc, &matches)?;
    known_choices(alloc, &matches)?;
    Ok(CommandLine {
        words: words_in(&matches),
        version,
        verbose: is_flagged(&matches, "verbose"),
        missing_ok: is_flagged(&matches, "missing-ok"),
        tabs: is_flagged(&matches, "tabs"),
    })
}

/// The path that stands in the place of a command, where one does: no command has a dot or a slash.
pub fn path_in_place(words: &[String]) -> Option<&str>
    ensures value { option_map (λ text. text.now) result ≡ path_in_place (map string_bytes words.now) }
{
    let (_, given) = words.split_first()?;
    let (first, _) = given.split_first()?;
    let bytes = first.as_bytes();
    (bytes.contains(&b'.') || bytes.contains(&b'/')).then_some(first.as_str())
}

// Whether the command that was entered was given the flag of this name.
fn is_flagged(matches: &ArgMatches<'_>, id: &str) -> bool
    ensures { result ≡ is_flagged id.now (subcommand_rows_of matches.now) }
{
    matches!(given(matches, id), Some("true"))
}

// The value of this name that the command which was entered was given.
fn given<'a>(matches: &ArgMatches<'a>, id: &str) -> Option<&'a str>
    ensures { option_map (λ text. text.now) result ≡ given_in id.now (subcommand_rows_of matches.now) }
{
    let (_, inner) = matches.subcommand()?;
    optional(inner, id)
}

fn version_in<'a>(alloc: Global, matches: &ArgMatches<'a>) -> Result<Option<AskedVersion>, Error>
    ensures value { IfOk result (λ version. IsAsked version (given_in version_id (subcommand_rows_of matches.now))) }
    ensures accepts { FailsBy (version_fault (subcommand_rows_of matches.now)) result }
{
    let Some((name, inner)) = matches.subcommand() else {
        return Ok(None);
    };
    let Some(text) = optional(inner, "log-version") else {
        return Ok(None);
    };
    if let Some(version) = version_for(name, text) {
        return Ok(Some(version));
    }
    let is_told = tells_version(name);
    let those = if is_told { "auto" } else { "5, 6, 7 or auto" };
    let message = format!(in alloc;
        "invalid value '{text}' for '--log-version <VERSION>': it is {those}"
    )?;
    Err(refusal(alloc, ErrorKind::InvalidValue, message.as_str())?)
}

// The version that is written so, where the command of this name takes it.
fn version_for(command: &str, text: &str) -> Option<AskedVersion>
    ensures value { IfSome result (λ version. text.now ≡ version_text version) }
    ensures accepts { is_some result ≡ is_version_for command.now text.now }
{
    match text {
        "auto" => Some(AskedVersion::Auto),
        _ if tells_version(command) => None,
        "5" => Some(AskedVersion::Five),
        "6" => Some(AskedVersion::Six),
        "7" => Some(AskedVersion::Seven),
        _ => None,
    }
}

// Whether the command of this name has no version but the one that its log names.
fn tells_version(command: &str) -> bool
    ensures value { result ≡ tells_version command.now }
{
    matches!(
        command,
        "entries" | "damage" | "doubt" | "builds" | "summary" | "compare" | "trace" | "picture"
    )
}

// Refuses choices that can't be met: both a build and all of them, and a rule for kinds that there isn't.
fn known_choices(alloc: Global, matches: &ArgMatches<'_>) -> Result<(), Error>
    ensures accepts { FailsBy (choice_fault (subcommand_rows_of matches.now)) result }
{
    if is_flagged(matches, "all") && given(matches, "build").is_some() {
        let message = "the argument '--build <BUILD>' cannot be used with '--all'";
        return Err(refusal(alloc, ErrorKind::ArgumentConflict, message)?);
    }
    match given(matches, "kind") {
        None | Some("extension" | "folder" | "top" | "work") => {}
        Some(text) => {
            let message = format!(in alloc;
                "invalid value '{text}' for '--kind <RULE>': it is extension, folder, top or work"
            )?;
            return Err(refusal(alloc, ErrorKind::InvalidValue, message.as_str())?);
        }
    }
    known_input(alloc, matches)
}

// Refuses a graph and a log that are both to be read from standard input, and estimates without a graph, because nothing else tells
// which command waits for which.
fn known_input(alloc: Global, matches: &ArgMatches<'_>) -> Result<(), Error>
    ensures accepts { FailsBy (or_else (input_fault (subcommand_rows_of matches.now)) (jobs_fault (subcommand_rows_of matches.now))) result }
{
    if matches!(given(matches, "graph"), Some("-")) && given(matches, "LOG").is_none() {
        let message = "the argument '--graph -' reads standard input, so LOG is required with it";
        return Err(refusal(alloc, ErrorKind::ArgumentConflict, message)?);
    }
    if given(matches, "jobs").is_some() && given(matches, "graph").is_none() {
        let message = "the argument '--jobs <LIST>' needs '--graph <FILE>'";
        return Err(refusal(alloc, ErrorKind::MissingRequiredArgument, message)?);
    }
    Ok(())
}

fn refusal(alloc: Global, kind: ErrorKind, message: &str) -> Result<Error, Error>
    ensures value { IfOk result (λ e. kind_of e ≡ kind) }
    ensures memory { IfErr result (λ e. kind_of e ≡ ErrorKind.OutOfMemory) }
{
    Ok(nlog_command(alloc)?.error(kind, message)?)
}
