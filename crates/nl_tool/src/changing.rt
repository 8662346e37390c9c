//! The words that change a log, over the folder of LOG and the files that they read.
//!
//! Whatever a word reads beside LOG it reads first. Then it asks the folder alone, which locks LOG, and looks at files under that lock.
ghost use Rattle.std.specs.Prelude.{◌≡◌, Err, IfErr, IfOk, IsSomeAnd, IsTrue, OnOk, option_map, string_bytes};
ghost use Rattle.nl_folder.specs.FolderView.{folder_view};
ghost use Rattle.nl_tool_change.specs.{Faults.{IsApplyFault, IsEntryFault, IsRecompactFault, IsRestatFault}, RecordWords.{GiveEntry}};
ghost use Rattle.nl_tool.specs.{Faults.{IsPruneFault, IsRepairFault, IsSettlingFault}, Changed.{AppliesAt, IsAnswerOf, IsNoLog, found_as, mended_log, MendsAt, PrunesAt, RecompactsAt, RecordsAt, RepairsAt, RestatsAt, RetimesAt, SaysFew}};
ghost use Rattle.nl_tool.specs.World.{MayMiss};
ghost use Rattle.nl_tool_doubt.specs.Mending.{IsMendFault};
ghost use Rattle.nl_tool_texts.specs.declared.fault.ToolFault.{ToolFault};

use crate::desk::{Desk, close, given, note_missing};
use crate::host::{BuildFiles, Errors, Host, Logs};
use crate::notes::{NotedReader, Notes};
use crate::program::Verdict;
use crate::reason::{Place, Reason, Why};
use nl_os::{Failure, FileRole, LogFolder};
use nl_tool_change::{
    Hears, LineFault, apply_on, entry_of, read_manifest, recompact_telling, record_command,
    restat_telling,
};
use nl_tool_doubt::{FileState, How, Mended, mend_to, prune_to, repair_to, retime_to};
use nl_tool_texts::{AllocResult, ToolFault, ToolResult};
use nl_tool_words::{Choices, NewEntry};
use std::alloc::Global;
use std::io::{self, ErrorKind, Write};

// If fewer than one output in this many has a file, that is said.
const FEW: usize = 10;

// The number of the error of a file that is missing.
const MISSING: i32 = 2;

impl<H: Host + Logs<L>, L: LogFolder, W: Write, E: Errors> Desk<'_, H, L, W, E> {
    // It refuses bad words before it asks anything of the log.
    pub fn record_in(&mut self, given: NewEntry<'_>) -> ToolResult
        ensures accepts { OnOk result (GiveEntry given.entry.start.now given.entry.end.now given.entry.mtime.now given.entry.name.now) }
        ensures call { RecordsAt (H.world self.old.host.now) self.old.asked given.entry self.new.notes.told.number result
            (option_map (folder_view L.Folder) self.old.left) (option_map (folder_view L.Folder) self.new.left) }
        ensures quiet { self.new.out ≡ self.old.out }
        ensures faults { IfErr result (IsEntryFault given.entry.start.now given.entry.end.now given.entry.mtime.now given.entry.name.now
            self.new.notes.told.number) }
    {
        let told = &mut self.notes.told;
        let entry = entry_of(given.start, given.end, given.mtime, given.name, told)?;
        note_missing(self.host, given.log, &mut self.notes);
        let at = self.log_at(given.log, true)?;
        let (alloc, command) = (self.notes.alloc, given.command.as_bytes());
        let (folder, answer) = record_command(
            alloc, at.secret, at.asked, at.folder, entry, command,
        );
        close(folder, answer, &mut self.left, &mut self.notes)
    }

    pub fn recompact_in(&mut self, log: &str, keep: &str) -> ToolResult
        ensures call { RecompactsAt (H.world self.old.host.now) self.old.asked log.entry keep.entry result
            (option_map (folder_view L.Folder) self.old.left) (option_map (folder_view L.Folder) self.new.left) }
        ensures quiet { self.new.out ≡ self.old.out }
        ensures faults { IfErr result IsRecompactFault }
    {
        let names = given(self.host, Some(keep), false, false, &mut self.notes)?;
        note_missing(self.host, log, &mut self.notes);
        let at = self.log_at(log, true)?;
        let names = NotedReader::new(names, &mut self.notes.heard);
        let (at, answer) = recompact_telling(self.notes.alloc, at, names, &mut self.notes.told);
        close(at.folder, answer, &mut self.left, &mut self.notes)
    }

    pub fn restat_in(&mut self, log: &str, times: &str) -> ToolResult
        ensures call { RestatsAt (H.world self.old.host.now) self.old.asked log.entry times.entry result
            (option_map (folder_view L.Folder) self.old.left) (option_map (folder_view L.Folder) self.new.left) }
        ensures quiet { self.new.out ≡ self.old.out }
        ensures faults { IfErr result IsRestatFault }
    {
        let pairs = given(self.host, Some(times), false, false, &mut self.notes)?;
        note_missing(self.host, log, &mut self.notes);
        let at = self.log_at(log, true)?;
        let pairs = NotedReader::new(pairs, &mut self.notes.heard);
        let (at, answer) = restat_telling(self.notes.alloc, at, pairs, &mut self.notes.told);
        close(at.folder, answer, &mut self.left, &mut self.notes)
    }

    pub fn apply_in(&mut self, log: &str, script: Option<&str>) -> ToolResult
        ensures call { AppliesAt (H.world self.old.host.now) self.old.asked log.entry script.entry (W.contents self.old.out) (W.contents self.new.out) result
            (option_map (folder_view L.Folder) self.old.left) (option_map (folder_view L.Folder) self.new.left) }
        ensures faults { IfErr result IsApplyFault }
    {
        let reader = given(self.host, script, false, false, &mut self.notes)?;
        let at = self.log_at(log, true)?;
        let mut hears = Explaining {
            errors: &mut self.errors,
            lines: script.map_or(Place::Input, Place::Script),
            looks: self.notes.looks,
        };
        let (alloc, secret, asked) = (self.notes.alloc, at.secret, at.asked);
        let reader = NotedReader::new(reader, &mut self.notes.heard);
        let (folder, answer) = apply_on(
            alloc,
            secret,
            asked,
            at.folder,
            reader,
            &mut self.out,
            &mut hears,
        );
        close(folder, answer, &mut self.left, &mut self.notes)
    }

    pub fn repair_in(&mut self, log: &str) -> ToolResult
        ensures call { RepairsAt (H.world self.old.host.now) self.old.asked log.entry self.new.notes.folder result
            (option_map (folder_view L.Folder) self.old.left) (option_map (folder_view L.Folder) self.new.left) }
        ensures quiet { self.new.out ≡ self.old.out }
        ensures faults { IfErr result IsRepairFault }
    {
        if self.missing_ok {
            note_missing(self.host, log, &mut self.notes);
        }
        let at = self.log_at(log, self.missing_ok)?;
        let (at, answer) = repair_to(self.notes.alloc, at);
        let answer = close(at.folder, answer, &mut self.left, &mut self.notes);
        if self.missing_ok {
            return answer;
        }
        or_missing(answer, &mut self.notes)
    }

    // It reads all targets before it asks anything of LOG.
    pub fn prune_in(&mut self, log: &str, path: Option<&str>) -> ToolResult<Verdict>
        ensures call { PrunesAt (H.world self.old.host.now) self.old.asked log.entry path.entry self.new.notes.folder
            (W.contents self.old.out) (W.contents self.new.out) result
            (option_map (folder_view L.Folder) self.old.left) (option_map (folder_view L.Folder) self.new.left) }
        ensures faults { IfErr result IsPruneFault }
    {
        let targets = given(self.host, path, false, false, &mut self.notes)?;
        let targets = NotedReader::new(targets, &mut self.notes.heard);
        let targets = match read_manifest(self.notes.alloc, targets, &mut self.notes.told) {
            Ok(targets) => targets,
            Err(fault) => return Err(fault),
        };
        let at = self.log_at(log, false)?;
        let (host, folder) = (self.host, None);
        let files = BuildFiles { host, folder };
        let (at, answer) = prune_to(self.notes.alloc, at, &files, targets, &mut self.out);
        let answer = close(at.folder, answer, &mut self.left, &mut self.notes);
        verdict_in(or_missing(answer, &mut self.notes))
    }

    pub fn retime_in(&mut self, log: &str) -> ToolResult<Verdict>
        ensures call { RetimesAt (H.world self.old.host.now) self.old.asked log.entry self.new.notes.early.items self.new.notes.folder
            (W.contents self.old.out) (W.contents self.new.out) result
            (option_map (folder_view L.Folder) self.old.left) (option_map (folder_view L.Folder) self.new.left) }
        ensures faults { IfErr result IsSettlingFault }
    {
        let at = self.log_at(log, false)?;
        let (host, folder) = (self.host, None);
        let files = BuildFiles { host, folder };
        let early = &mut self.notes.early;
        let (at, answer) = retime_to(self.notes.alloc, at, &files, &mut self.out, early);
        let answer = close(at.folder, answer, &mut self.left, &mut self.notes);
        verdict_in(or_missing(answer, &mut self.notes))
    }

    /// Without a path, LOG is the `.ninja_log` of the build's folder.
    pub fn mend_in(&mut self, log: Option<&str>, choices: Choices<'_>) -> ToolResult<Verdict>
        ensures call { MendsAt (H.world self.old.host.now) log.entry choices.entry self.old.notes.screen.output self.new.notes.folder
            (E.said self.old.errors) (E.said self.new.errors) (W.contents self.old.out) (W.contents self.new.out) result
            (option_map (folder_view L.Folder) self.old.left) (option_map (folder_view L.Folder) self.new.left) }
        ensures faults { IfErr result IsMendFault }
    {
        let (host, alloc, folder) = (self.host, self.notes.alloc, choices.folder);
        // The log that is missing with its folder would be taken for a whole one.
        if is_missing(host, folder) {
            let (file, error) = (FileRole::Folder, io::Error::from_raw_os_error(MISSING));
            self.notes.folder = Some(Failure { file, error });
            return Err(ToolFault::Read);
        }
        let log = mended_log(alloc, log, folder)?;
        let how = How {
            dry_run: choices.dry_run,
            all: choices.all,
            at_terminal: self.notes.screen.output,
        };
        let at = self.log_at(log.as_str(), false)?;
        let files = BuildFiles { host, folder };
        let (left, answer) = mend_to(alloc, at.secret, at.folder, &files, how, &mut self.out);
        let answer = close(left, answer, &mut self.left, &mut self.notes);
        // A missing log needs no mending.
        if lacks_log(&answer, &mut self.notes) {
            return Ok(Verdict::Done);
        }
        match answer {
            Ok(mended) => {
                say_few(&mut self.errors, log.as_str(), mended);
                Ok(Verdict::of(mended.is_told))
            }
            Err(fault) => Err(fault),
        }
    }
}

fn is_missing<H: Host>(host: &H, folder: Option<&str>) -> bool
    ensures { IsTrue result → IsSomeAnd folder.entry (λ path. MayMiss (H.world host.now).states path.now) }
{
    match folder {
        Some(path) => matches!(host.look(None, path.as_bytes()), FileState::Missing),
        None => false,
    }
}

// LOG, or the `.ninja_log` of the build's folder.
fn mended_log(alloc: Global, log: Option<&str>, folder: Option<&str>) -> AllocResult<String>
    ensures value { IfOk result (λ path. string_bytes path ≡ mended_log log.entry folder.entry) }
{
    match (log, folder) {
        (Some(log), _) => String::from_str(alloc, log),
        (None, Some(folder)) => format!(in alloc; "{folder}/.ninja_log"),
        (None, None) => String::from_str(alloc, ".ninja_log"),
    }
}

// If few outputs have a file, the folder may be that of another build.
fn say_few<E: Errors>(errors: &mut E, log: &str, mended: Mended)
    ensures says { SaysFew log.now mended (E.said errors.old) (E.said errors.new) }
{
    let (outputs, there) = (mended.outputs, mended.there);
    if there < outputs / FEW {
        errors.say(format_args!("LOG {log}: {there} of {outputs} outputs are here"));
    }
}

fn verdict_in(answer: ToolResult<bool>) -> ToolResult<Verdict>
    ensures { result ≡ found_as answer }
{
    Ok(Verdict::of(answer?))
}

// A log that couldn't be opened because it is missing wasn't read.
fn or_missing<T: Drop>(answer: ToolResult<T>, notes: &mut Notes) -> ToolResult<T>
    ensures value { IsAnswerOf notes.old.folder answer result }
    ensures same { (notes.new.folder ≡ notes.old.folder) × (notes.new.early ≡ notes.old.early) }
{
    if lacks_log(&answer, notes) {
        return Err(ToolFault::Read);
    }
    answer
}

fn lacks_log<T>(answer: &ToolResult<T>, notes: &mut Notes) -> bool
    ensures value { IsTrue result → (answer.now ≡ Err ToolFault.Folder) × IsSomeAnd notes.old.folder IsNoLog }
    ensures same { (notes.new.folder ≡ notes.old.folder) × (notes.new.early ≡ notes.old.early) }
{
    if let (Err(ToolFault::Folder), Some(failure)) = (answer, notes.folder) {
        if failure.file == FileRole::Log && failure.error.kind() == ErrorKind::NotFound {
            notes.is_missing = true;
            return true;
        }
    }
    false
}

// The lines of `apply`: of a bad one it is said why, where that is asked for.
#[derive(Drop)]
struct Explaining<'e, E> {
    errors: &'e mut E,
    lines: Place<'e>,
    looks: bool,
}

impl<E: Errors> Hears for Explaining<'_, E> {
    fn bad_line(&mut self, number: u64, why: LineFault) {
        if self.looks {
            let (place, reason) = (self.lines, Reason::Line(number, Some(why)));
            self.errors.say(Why { place, reason });
        }
    }
}
