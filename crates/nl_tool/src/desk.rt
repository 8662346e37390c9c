//! What a command is done with: the machine, the standard streams, and what is noted. Of a log or of a graph that is told of, all bytes are
//! read before.
ghost use Rattle.std.specs.Prelude.{◌≡◌, ◌≢◌, ◌⊎◌, ◌&&◌, IsErrOf, false, not, is_some, None, Some, IfErr, IfOk, IsErr, IsSome};
ghost use Rattle.nl_folder.specs.FolderView.{folder_view};
ghost use Rattle.nl_tool_print.specs.Faults.{IsLogFault};
ghost use Rattle.nl_tool_texts.specs.declared.fault.ToolFault.{ToolFault};
ghost use Rattle.nl_tool.specs.{VersionChoice.{asked_in, number_of}, World.{GivesText, IsNoText, IsTextOf, graph_file}};

use crate::host::{Host, Logs};
use crate::notes::{NotedReader, NotedWriter, Notes};
use either::{Either, Left, Right};
use nl_lines::ReadSource;
use nl_os::LogFolder;
use nl_table::Secret;
use nl_tool_change::AskedFolder;
use nl_tool_doubt::FileState;
use nl_tool_print::read_all;
use nl_tool_texts::{ToolFault, ToolResult};
use nl_tool_words::{AskedVersion, CommandLine, Words};
use nl_versions::LogVersion;
use std::alloc::Global;
use std::io::{self, Empty, ErrorKind, Read, Write};

// How many characters a line of a terminal has where COLUMNS doesn't tell.
const USUAL: usize = 80;

/// Which of the standard streams are terminals; by default none is.
#[derive(Clone, Copy, Debug, Default, PartialEq, Eq, Drop)]
pub struct Screen {
    /// Standard input is: a person types there, if anyone does.
    pub input: bool,
    /// Standard output is: a report is for a person.
    pub output: bool,
    /// Standard error is: it is told why something was refused, and how far a log is read, where that takes long.
    pub errors: bool,
}

/// What a command line is done with: the machine, and standard output and standard error.
#[derive(Drop)]
pub struct Desk<'h, H, L, W, E> {
    pub host: &'h H,
    pub out: W,
    pub errors: E,
    /// The version of the log that is asked for. None: that of its first line.
    pub asked: Option<LogVersion>,
    /// Whether a missing log is read as one without bytes, where a word doesn't say so by itself.
    pub missing_ok: bool,
    /// How many characters a line has at most, where a report is for a person.
    pub columns: Option<usize>,
    /// The folder of the log that the command changes, as it left it, locked still. None if it asked nothing of one.
    pub left: Option<L>,
    pub notes: Notes,
}

/// Standard input, a file, or nothing.
pub type Given<H> = Either<<H as Host>::Input, Either<<H as Host>::File, Empty>>;

/// What a report is made with: names are hashed under the secret, and a line has so many characters at most.
#[derive(Clone, Copy, Drop)]
pub struct Means {
    pub alloc: Global,
    pub secret: Secret,
    pub columns: Option<usize>,
}

impl<'h, H: Host, L: Drop, W: Drop, E: Drop> Desk<'h, H, L, W, E> {
    /// What a command line is done with. The words that change a log by what it holds go by its version, if none is asked for.
    pub fn of(host: &'h H, out: W, errors: E, line: &CommandLine<'_>, notes: Notes) -> Self
        ensures host { result.host.now ≡ host.now }
        ensures held { (result.out ≡ out) × (result.errors ≡ errors) }
        ensures asked { result.asked ≡ asked_in line.now.words line.now.version }
        ensures same { result.missing_ok ≡ line.now.missing_ok }
        ensures columns { is_some result.columns ≡ (notes.screen.output && not line.now.tabs) }
        ensures left { result.left ≡ None }
        ensures notes { result.notes ≡ notes }
    {
        let is_read = notes.screen.output && !line.tabs;
        let columns = is_read.then(|| host.columns().unwrap_or(USUAL));
        let asked = match (line.words, line.version) {
            (_, Some(asked)) => number_of(asked),
            (Words::Change(..), None) => None,
            (_, None) => Some(LogVersion::Five),
        };
        Desk {
            host,
            out,
            errors,
            asked,
            missing_ok: line.missing_ok,
            columns,
            left: None,
            notes,
        }
    }
}

impl<H, L, W: Write, E> Desk<'_, H, L, NotedWriter<W>, E> {
    /// What was held back of the text is written, and it is kept why a write failed.
    pub fn finish<T: Drop>(&mut self, answer: ToolResult<T>) -> ToolResult<T>
        ensures value { (result ≡ answer) ⊎ IsErrOf result ToolFault.Write }
        ensures fault { IsErr answer → result ≡ answer }
        ensures held { self.new.left ≡ self.old.left }
    {
        let flushed = self.out.flush();
        self.notes.written = self.out.failure;
        match flushed {
            Err(_) if answer.is_ok() => Err(ToolFault::Write),
            _ => answer,
        }
    }
}

/// Reads a file at a path, or standard input where its path is left out; nothing, where the file may be missing, and is.
pub fn given<H: Host>(
    host: &H,
    path: Option<&str>,
    missing_ok: bool,
    tells: bool,
    notes: &mut Notes,
) -> ToolResult<Given<H>>
    ensures text { IfOk result (λ reader. GivesText (H.world host.now) missing_ok path.entry (⟦<Given<H> as Read>⟧.remaining reader)) }
    ensures faults { IfErr result (λ e. (e ≡ ToolFault.Read) × (path.entry ≢ None)) }
    ensures noted { IsErr result → IsSome notes.new.heard.failure }
    ensures kept { notes.new.folder ≡ notes.old.folder }
{
    let Some(path) = path else {
        return Ok(Left(host.input(tells)));
    };
    match host.open(path, tells) {
        Ok(file) => Ok(Right(Left(file))),
        Err(error) if missing_ok && error.kind() == ErrorKind::NotFound => {
            notes.is_missing = true;
            Ok(Right(Right(io::empty())))
        }
        Err(error) => {
            notes.heard.failure = Some(error);
            Err(ToolFault::Read)
        }
    }
}

/// All bytes of a log, or of a graph. It says how far a log is read, where that takes long.
pub fn bytes_in<H: Host>(
    host: &H,
    path: Option<&str>,
    is_log: bool,
    missing_ok: bool,
    notes: &mut Notes,
) -> ToolResult<Vec<u8>>
    ensures value { IfOk result (λ all. IsTextOf (H.world host.now) missing_ok path.entry all.items) }
    ensures refused { IfErr result (IsNoText (H.world host.now) missing_ok path.entry) }
    ensures faults { IfErr result IsLogFault }
    ensures kept { notes.new.folder ≡ notes.old.folder }
{
    let from = given(host, path, missing_ok, is_log && notes.screen.errors, notes)?;
    let reader = NotedReader::new(from, &mut notes.heard);
    Ok(read_all(notes.alloc, is_log, &mut ReadSource::new(reader))?)
}

/// All bytes of a graph. It is the second file, and read before the log.
pub fn graph_in<H: Host>(host: &H, path: &str, notes: &mut Notes) -> ToolResult<Vec<u8>>
    ensures value { IfOk result (λ text. IsTextOf (H.world host.now) false (graph_file path.entry) text.items) }
    ensures refused { IfErr result (IsNoText (H.world host.now) false (graph_file path.entry)) }
    ensures faults { IfErr result IsLogFault }
    ensures kept { notes.new.folder ≡ notes.old.folder }
{
    notes.begin(true);
    bytes_in(host, (path != "-").then_some(path), false, false, notes)
}

/// Says that a log is missing which is read as one without bytes, if more is to be said than the words ask for.
pub fn note_missing<H: Host>(host: &H, log: &str, notes: &mut Notes) {
    if notes.looks && matches!(host.look(None, log.as_bytes()), FileState::Missing) {
        notes.is_missing = true;
    }
}

pub fn number_of(asked: AskedVersion) -> Option<LogVersion>
    ensures { result ≡ number_of asked }
{
    match asked {
        AskedVersion::Five => Some(LogVersion::Five),
        AskedVersion::Six => Some(LogVersion::Six),
        AskedVersion::Seven => Some(LogVersion::Seven),
        AskedVersion::Auto => None,
    }
}

impl<H, L, W, E> Desk<'_, H, L, W, E> {
    pub fn means(&self) -> Means
        ensures columns { result.columns ≡ self.now.columns }
    {
        Means {
            alloc: self.notes.alloc,
            secret: self.notes.secret,
            columns: self.columns,
        }
    }
}

impl<H: Host + Logs<L>, L: LogFolder, W, E> Desk<'_, H, L, W, E> {
    /// Where the log at this path stands. No file is touched. A log that is missing is made only if that is said.
    pub fn log_at(&self, log: &str, makes: bool) -> ToolResult<AskedFolder<L>>
        ensures state { IfOk result (λ at. folder_view L.Folder at.folder ≡ (H.world self.now.host.now).found log.now) }
        ensures asked { IfOk result (λ at. at.asked ≡ self.now.asked) }
        ensures faults { IfErr result (λ e. e ≡ ToolFault.Memory) }
    {
        Ok(AskedFolder {
            secret: self.notes.secret,
            asked: self.asked,
            folder: self.host.log_at(log, makes, self.notes.looks)?,
        })
    }
}

/// Keeps the folder as a command left it, and why calls of it failed.
pub fn close<L: LogFolder, T: Drop>(
    folder: L,
    answer: ToolResult<T>,
    left: &mut Option<L>,
    notes: &mut Notes,
) -> ToolResult<T>
    ensures value { result ≡ answer }
    ensures left { left.new ≡ Some folder }
    ensures kept { notes.new.folder ≡ L.last folder }
    ensures unsynced { notes.new.unsynced ≡ L.unsynced folder }
    ensures masked { notes.new.is_masked ≡ L.is_masked folder }
    ensures same { notes.new.early ≡ notes.old.early }
{
    notes.folder = folder.last_failure();
    notes.unsynced = folder.unsynced_folder();
    notes.is_masked = folder.is_masked();
    *left = Some(folder);
    answer
}
