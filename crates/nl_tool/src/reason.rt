//! Why something was refused, as it is said where `--verbose` asks for it: which file it is of, and the reason.
ghost use Rattle.std.specs.Prelude.{◌≡◌, ◌&&◌, None, Some, IfSome, IsSome, false, true};
ghost use Rattle.nl_os.specs.declared.failed_call.FileRole.{FileRole};
ghost use Rattle.nl_tool_texts.specs.declared.fault.ToolFault.{ToolFault};
ghost use Rattle.nl_tool.specs.{declared.reason.Place.{Place}, declared.reason.Reason.{Reason}, Reasons.{HasText, IsNote, IsReasonFor, IsSystem, IsUnsynced, NamesVersion, log_place, mended_place, number_text, place_text, read_place, reads_input, reason_text, refusal_text, why_text, words_for, words_heard}};

use crate::notes::Notes;
use nl_os::{Failure, FileRole, Look, escaped_of, folder_part, look_of};
use nl_tool_change::{LineFault, NumberFault, NumberOf, WrongNumber};
use nl_tool_texts::ToolFault;
use nl_tool_words::{Changing, CommandLine, Words};
use nl_versions::is_version_read;
use std::alloc::Global;
use std::{fmt, io, str};

/// A file that a command names, or a standard stream.
#[derive(Clone, Copy, Debug, PartialEq, Eq, Drop)]
pub enum Place<'a> {
    /// A file of the log at this path.
    OfLog(FileRole, &'a str),
    /// The same of the log of the build in this folder, or in the one in which the program runs.
    OfBuild(Option<&'a str>, FileRole),
    Keep(&'a str),
    Times(&'a str),
    Targets(&'a str),
    Script(&'a str),
    /// The file of `hash-file`.
    Command(&'a str),
    Input,
    Output,
    /// The name that `record` is given.
    Name,
    Number(NumberOf, &'a str),
}

impl fmt::Display for Place<'_> {
    ghost output = { λ place. Some (place_text place) };

    fn fmt<W: fmt::Write>(&self, f: &mut fmt::Formatter<W>) -> fmt::Result {
        match *self {
            Place::OfLog(FileRole::Log, path) => write!(f, "LOG {path}"),
            Place::OfLog(FileRole::Scratch, log) => write!(f, "scratch {log}.recompact"),
            Place::OfLog(FileRole::Folder, log) => {
                let folder = folder_part(log);
                write!(f, "folder {folder}")
            }
            Place::OfBuild(None, FileRole::Log) => write!(f, "LOG .ninja_log"),
            Place::OfBuild(None, FileRole::Scratch) => write!(f, "scratch .ninja_log.recompact"),
            Place::OfBuild(None, FileRole::Folder) => write!(f, "folder ."),
            Place::OfBuild(Some(folder), FileRole::Log) => write!(f, "LOG {folder}/.ninja_log"),
            Place::OfBuild(Some(folder), FileRole::Scratch) => {
                write!(f, "scratch {folder}/.ninja_log.recompact")
            }
            Place::OfBuild(Some(folder), FileRole::Folder) => write!(f, "folder {folder}"),
            Place::Keep(path) => write!(f, "KEEP {path}"),
            Place::Times(path) => write!(f, "TIMES {path}"),
            Place::Targets(path) => write!(f, "TARGETS {path}"),
            Place::Script(path) => write!(f, "SCRIPT {path}"),
            Place::Command(path) => write!(f, "FILE {path}"),
            Place::Input => write!(f, "standard input"),
            Place::Output => write!(f, "standard output"),
            Place::Name => write!(f, "NAME"),
            Place::Number(which, text) => write!(f, "{which} {text}"),
        }
    }
}

// How many bytes are told of a file that looks like nothing that is known.
const START: usize = 20;

// The number of the error of a disk that has no room.
const FULL: i32 = 28;

// What is said after a version that another choice of the command line takes.
const KNOWN: &str = "; add --log-version auto";

/// What is known of a refusal beside its fault.
#[derive(Debug, PartialEq, Eq, Drop)]
pub enum Reason {
    /// What the system says of the call that failed.
    System(String),
    /// The same, of a disk that has no room: the log has what it had.
    Full(String),
    /// That a log is locked, and who may hold the lock.
    Locked(String),
    /// What the system says of a folder that can't be synced, over which a command was done all the same.
    Unsynced(String),
    /// That a log which was written anew may have lost an access control list.
    Masked,
    /// That the log is missing over which a command was done.
    Missing,
    /// That builds were found again of which a command told, since the log was written anew.
    Again,
    /// The number of a bad line, from 1, and what is wrong with it, where that is known.
    Line(u64, Option<LineFault>),
    /// The number of the line with a negative time, from 1.
    Negative(u64),
    /// The output whose file has a negative time stamp, as it is said.
    Early(String),
    /// The version of the log, in digits.
    Version(String),
    /// What a file looks like that is no log.
    Looks(Look),
    /// How it begins.
    Begins(String),
    /// Which of several numbers is wrong, from 1, where there are several.
    Number(Option<usize>, NumberFault),
    /// A graph lacks each command of a build, or one of them needs its own output.
    OtherBuild,
    /// A name has no byte, a byte that it may not have, or too many.
    NoBytes,
    Tab(usize),
    Newline(usize),
    Long(usize),
}

impl fmt::Display for Reason {
    ghost output = { λ reason. Some (reason_text reason) };

    fn fmt<W: fmt::Write>(&self, f: &mut fmt::Formatter<W>) -> fmt::Result {
        match self {
            Reason::System(text) => write!(f, "{text}"),
            Reason::Full(text) => write!(f, "{text}; LOG keeps its entries"),
            Reason::Locked(text) => write!(f, "{text}: an nlog, or a tool that keeps LOG"),
            Reason::Unsynced(text) => write!(
                f,
                "it can't be synced, so a power cut may undo a rename: {text}"
            ),
            Reason::Masked => write!(
                f,
                "it keeps no access control list; if it had one, its group has the rights of the mask"
            ),
            Reason::Missing => write!(f, "it is missing, and was read as empty"),
            Reason::Again => write!(
                f,
                "it was written anew, so builds were found again by their time stamps"
            ),
            Reason::Line(number, None) => write!(f, "line {number}"),
            Reason::Line(number, Some(fault)) => write!(f, "line {number}: {fault}"),
            Reason::Negative(number) => write!(f, "line {number}: the time stamp is negative"),
            Reason::Early(text) => write!(f, "the file of output \"{text}\" is from before 1970"),
            Reason::Version(version) => {
                let way = if is_version_read(version) { KNOWN } else { "" };
                write!(f, "version {version}{way}")
            }
            Reason::Looks(look) => write!(f, "{look}"),
            Reason::Begins(text) => write!(f, "it begins with \"{text}\""),
            Reason::Number(None, fault) => write!(f, "{fault}"),
            Reason::Number(Some(number), fault) => write!(f, "number {number}: {fault}"),
            Reason::OtherBuild => write!(f, "no output of the build is in it, or one needs itself"),
            Reason::NoBytes => write!(f, "it has no byte"),
            Reason::Tab(at) => write!(f, "byte {at} is a tab"),
            Reason::Newline(at) => write!(f, "byte {at} is a newline"),
            Reason::Long(length) => write!(f, "it has {length} bytes, and a name at most 65536"),
        }
    }
}

/// The file that a refusal is of, and its reason.
#[derive(Debug, PartialEq, Eq, Drop)]
pub struct Why<'a> {
    pub place: Place<'a>,
    pub reason: Reason,
}

impl<'a> Why<'a> {
    fn at(place: Option<Place<'a>>, reason: Reason) -> Note<'a>
        ensures value { IfSome result (λ why. (place.entry ≡ Some why.place) × (why.reason ≡ reason)) }
        ensures whenever { IsSome place.entry → IsSome result }
    {
        place.map(|place| Why { place, reason })
    }

    fn note(is_said: bool, place: Option<Place<'a>>, reason: Reason) -> Note<'a>
        ensures { IsNote is_said place.entry reason result }
    {
        if is_said {
            Why::at(place, reason)
        } else {
            None
        }
    }
}

impl fmt::Display for Why<'_> {
    ghost output = { λ why. Some (why_text why) };

    fn fmt<W: fmt::Write>(&self, f: &mut fmt::Formatter<W>) -> fmt::Result {
        write!(f, "{}: {}", self.place, self.reason)
    }
}

/// What is said beside an answer, if anything is.
pub type Note<'a> = Option<Why<'a>>;

/// A refusal as it is said: its fault, and after it what else is to be said of it.
#[derive(Debug, PartialEq, Eq, Drop)]
pub struct Refusal<'a> {
    pub fault: ToolFault,
    pub why: Note<'a>,
}

impl fmt::Display for Refusal<'_> {
    ghost output = { λ refusal. Some (refusal_text refusal) };

    fn fmt<W: fmt::Write>(&self, f: &mut fmt::Formatter<W>) -> fmt::Result {
        match &self.why {
            None => write!(f, "{}", self.fault),
            Some(why) => write!(f, "{}\nnlog: {why}", self.fault),
        }
    }
}

/// What is said of a command that was done: that builds were found again of which it told; and where the command line asks for more, that the
/// log was missing, and that its access control list is gone, if it had one.
pub fn notes_of<'a>(line: &CommandLine<'a>, notes: &Notes) -> (Note<'a>, Note<'a>, Note<'a>)
    ensures again { IsNote notes.now.is_again (log_place line.now.words FileRole.Log) Reason.Again result.0 }
    ensures empty { IsNote (line.now.verbose && notes.now.is_missing) (log_place (words_heard line.now.words notes.now.is_second) FileRole.Log)
        Reason.Missing result.1 }
    ensures masked { IsNote (line.now.verbose && notes.now.is_masked) (log_place line.now.words FileRole.Log) Reason.Masked result.2 }
{
    let log = log_place(&line.words, FileRole::Log);
    let heard = log_place(&words_heard(&line.words, notes.is_second), FileRole::Log);
    (
        Why::note(notes.is_again, log, Reason::Again),
        Why::note(line.verbose && notes.is_missing, heard, Reason::Missing),
        Why::note(line.verbose && notes.is_masked, log, Reason::Masked),
    )
}

/// What is said of a command that was done in a folder which can't be synced, where the command line asks for more.
pub fn unsynced_note<'a>(line: &CommandLine<'a>, notes: &Notes) -> Note<'a>
    ensures quiet { line.now.verbose ≡ false → result ≡ None }
    ensures none { notes.now.unsynced ≡ None → result ≡ None }
    ensures note { IfSome result (λ why. (log_place line.now.words FileRole.Folder ≡ Some why.place) × IsUnsynced why.reason) }
{
    if !line.verbose {
        return None;
    }
    let error = notes.unsynced?;
    let text = format!(in notes.alloc; "{error}").ok()?;
    let place = log_place(&line.words, FileRole::Folder);
    Why::at(place, Reason::Unsynced(text))
}

/// What is said of a fault of a command: its reason, where it is known, if the command line asks for it, or a person reads it.
pub fn refusal_of<'a>(line: &CommandLine<'a>, fault: ToolFault, notes: &Notes) -> Refusal<'a>
    ensures fault { result.fault ≡ fault }
    ensures quiet { line.now.verbose ≡ false → notes.now.screen.errors ≡ false → result.why ≡ None }
    ensures why { IfSome result.why (IsReasonFor (words_for fault line.now.words notes.now.is_second) fault notes.now) }
    ensures whenever { line.now.verbose ≡ true → fault ≡ ToolFault.BadNumber
        → HasText line.now.words notes.now.told.number → IsSome result.why }
{
    if !line.verbose && !notes.screen.errors {
        return Refusal { fault, why: None };
    }
    let words = match fault {
        ToolFault::BadNumber => line.words,
        ToolFault::OtherGraph => words_heard(&line.words, true),
        _ => words_heard(&line.words, notes.is_second),
    };
    let why = why_of(&words, fault, notes);
    Refusal { fault, why }
}

// With two logs, the words that read the second of them, or the first; with a log and a graph, the words that read the log, or a file;
// else the words as they are.
fn words_heard<'a>(words: &Words<'a>, is_second: bool) -> Words<'a>
    ensures { result ≡ words_heard words.now is_second }
{
    match *words {
        Words::Compare(old, new, _) => Words::Show(Some(if is_second { new } else { old })),
        Words::Read(_, _, choices) => match choices.graph {
            Some(path) if is_second => Words::HashFile((path != "-").then_some(path)),
            _ => *words,
        },
        other => other,
    }
}

/// Whether words read standard input, for one of the files that they read.
pub fn reads_input(words: &Words<'_>) -> bool
    ensures value { result ≡ reads_input words.now }
{
    matches!(read_place(&words_heard(words, false)), Some(Place::Input))
        || matches!(read_place(&words_heard(words, true)), Some(Place::Input))
}

fn why_of<'a>(words: &Words<'a>, fault: ToolFault, notes: &Notes) -> Note<'a>
    ensures why { IfSome result (IsReasonFor words.now fault notes.now) }
    ensures whenever { fault ≡ ToolFault.BadNumber → HasText words.now notes.now.told.number → IsSome result }
{
    match fault {
        ToolFault::BadLine(number) => {
            Why::at(read_place(words), Reason::Line(number, notes.told.why))
        }
        ToolFault::EmptyName => Why::at(Some(Place::Name), Reason::NoBytes),
        ToolFault::BadByte(at) => match *words {
            Words::Record(entry) => match entry.name.as_bytes().get(at)? {
                b'\n' => Why::at(Some(Place::Name), Reason::Newline(at)),
                _ => Why::at(Some(Place::Name), Reason::Tab(at)),
            },
            _ => None,
        },
        ToolFault::LongName => match *words {
            Words::Record(entry) => Why::at(Some(Place::Name), Reason::Long(entry.name.len())),
            _ => None,
        },
        ToolFault::OtherGraph => Why::at(read_place(words), Reason::OtherBuild),
        ToolFault::BadNumber => {
            let WrongNumber { which, nth, why } = notes.told.number?;
            let text = number_text(words, which)?;
            Why::at(Some(Place::Number(which, text)), Reason::Number(nth, why))
        }
        _ => noted_why(words, fault, notes),
    }
}

// What the system said, or how the file begins that was read.
fn noted_why<'a>(words: &Words<'a>, fault: ToolFault, notes: &Notes) -> Note<'a>
    ensures why { IfSome result (IsReasonFor words.now fault notes.now) }
{
    let alloc = notes.alloc;
    match fault {
        ToolFault::Read => match notes.heard.failure {
            Some(error) => said_of(alloc, read_place(words), error),
            None => {
                let Failure { file, error } = notes.folder?;
                said_of(alloc, log_place(words, file), error)
            }
        },
        ToolFault::Write => said_of(alloc, Some(Place::Output), notes.written?),
        ToolFault::Folder => {
            let Failure { file, error } = notes.folder?;
            let text = format!(in alloc; "{error}").ok()?;
            let reason = match error.kind() {
                _ if error.raw_os_error() == Some(FULL) => Reason::Full(text),
                io::ErrorKind::WouldBlock => Reason::Locked(text),
                _ => Reason::System(text),
            };
            Why::at(log_place(words, file), reason)
        }
        ToolFault::NegativeTime(_) => {
            let reason = if notes.early.is_empty() {
                Reason::Negative(notes.told.negative?)
            } else {
                Reason::Early(escaped_of(alloc, notes.early.as_slice())?)
            };
            Why::at(read_place(words), reason)
        }
        ToolFault::OtherVersion => {
            let digits = named_version(notes.heard.beginning.as_slice())?;
            let version = String::from_str(alloc, str::from_utf8(digits).ok()?).ok()?;
            Why::at(log_place(words, FileRole::Log), Reason::Version(version))
        }
        ToolFault::NotALog => {
            let bytes = notes.heard.beginning.as_slice();
            let reason = match look_of(bytes) {
                Some(look) => Reason::Looks(look),
                None => Reason::Begins(escaped_of(alloc, &bytes[..bytes.len().min(START)])?),
            };
            Why::at(log_place(words, FileRole::Log), reason)
        }
        _ => None,
    }
}

fn number_text<'a>(words: &Words<'a>, which: NumberOf) -> Option<&'a str>
    ensures { result ≡ number_text words.now which }
{
    match (*words, which) {
        (Words::Record(entry), NumberOf::Start) => Some(entry.start),
        (Words::Record(entry), NumberOf::End) => Some(entry.end),
        (Words::Record(entry), NumberOf::Mtime) => Some(entry.mtime),
        (Words::Read(_, _, choices), NumberOf::Lines) => choices.lines,
        (Words::Read(_, _, choices), NumberOf::Build) => choices.build,
        (Words::Read(_, _, choices), NumberOf::Jobs) => choices.jobs,
        (Words::Compare(_, _, choices), NumberOf::Lines) => choices.lines,
        (Words::Compare(_, _, choices), NumberOf::Least) => choices.least,
        _ => None,
    }
}

fn said_of<'a>(alloc: Global, place: Option<Place<'a>>, error: io::Error) -> Note<'a>
    ensures { IfSome result (λ why. (place.entry ≡ Some why.place) × IsSystem why.reason) }
{
    Why::at(place, Reason::System(format!(in alloc; "{error}").ok()?))
}

fn named_version(beginning: &[u8]) -> Option<&[u8]>
    ensures { IfSome result (λ digits. NamesVersion beginning.now digits.now) }
{
    let rest = beginning.strip_prefix(b"# ninja log v")?;
    let end = rest.iter().position(|byte| *byte == b'\n')?;
    let version = &rest[..end];
    let is_number = version.iter().all(|byte| byte.is_ascii_digit());
    is_number.then_some(version)
}

fn read_place<'a>(words: &Words<'a>) -> Option<Place<'a>>
    ensures { result ≡ read_place words.now }
{
    match *words {
        Words::Show(None) | Words::Check(None) | Words::Read(_, None, _) => Some(Place::Input),
        Words::Show(Some(log)) | Words::Check(Some(log)) | Words::Read(_, Some(log), _) => {
            Some(Place::OfLog(FileRole::Log, log))
        }
        Words::HashFile(file) => Some(file.map_or(Place::Input, Place::Command)),
        Words::Replay(script) => Some(script.map_or(Place::Input, Place::Script)),
        Words::Recompact(_, keep) => Some(Place::Keep(keep)),
        Words::Restat(_, times) => Some(Place::Times(times)),
        Words::Change(Changing::Prune, _, file) => Some(file.map_or(Place::Input, Place::Targets)),
        Words::Change(Changing::Apply, _, file) => Some(file.map_or(Place::Input, Place::Script)),
        Words::Change(_, log, _) => Some(Place::OfLog(FileRole::Log, log)),
        Words::Mend(log, choices) => Some(mended_place(log, choices.folder, FileRole::Log)),
        Words::Hash(_) | Words::Record(_) | Words::Compare(..) => None,
    }
}

fn log_place<'a>(words: &Words<'a>, file: FileRole) -> Option<Place<'a>>
    ensures { result ≡ log_place words.now file }
{
    match *words {
        Words::Record(entry) => Some(Place::OfLog(file, entry.log)),
        Words::Recompact(log, _) | Words::Restat(log, _) | Words::Change(_, log, _) => {
            Some(Place::OfLog(file, log))
        }
        Words::Mend(log, choices) => Some(mended_place(log, choices.folder, file)),
        Words::Show(_) | Words::Check(_) | Words::Read(..) => read_place(words),
        Words::Hash(_) | Words::HashFile(_) | Words::Replay(_) | Words::Compare(..) => None,
    }
}

fn mended_place<'a>(log: Option<&'a str>, folder: Option<&'a str>, file: FileRole) -> Place<'a>
    ensures { result ≡ mended_place log.entry folder.entry file }
{
    log.map_or(Place::OfBuild(folder, file), |log| Place::OfLog(file, log))
}
