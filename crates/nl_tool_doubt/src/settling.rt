//! The words that look at a log and at its outputs' files, and change the log: over one state of the folder.
//!
//! 1. LOG is read whole through the folder, which holds the lock on LOG from its first read on until it is let go.
//! 2. The word looks at these bytes and at the files, and says what is due.
//! 3. That is made of the log, through the same folder. If nothing is due or the word fails, LOG stays as it is.
ghost use Rattle.std.specs.Prelude.{◌≡◌, ◌<◌, IsSomeAnd, length, slice_get, ℕ, [], List, Option, Some, Result, IfErr, IfOk, OnOk, MatchOption};
ghost use Rattle.nl_folder.specs.FolderView.{folder_view};
ghost use Rattle.nl_tool_change.specs.{Calls.{RepairsFor, keeping_all, ChangesLogFor}, Faults.{IsRecordFault}, Mending.{MendsLogFor}};
ghost use Rattle.nl_tool_texts.specs.declared.fault.ToolFault.{ToolFault};
ghost use Rattle.nl_versions.specs.LogAs.{log_for};
ghost use Rattle.nl_tool_doubt.specs.{declared.files.FileState.{FileState}, declared.settling.Due.{Due}, Settling.{FindsKept, FindsTimes, IsAsked, IsMade, IsPruned, IsRetimed, IsUnloaded, IsUntold, IsWholeLog, Settles, TellsDamage, is_nothing}, There.{table_in}};

use crate::files::{OutputFiles, names_there, times_there};
use nl_fields::Name;
use nl_folder::Folder;
use nl_lines::SliceSource;
use nl_session::first_negative;
use nl_table::{LoadFault, NameSet, Secret, Table};
use nl_tool_change::{AskedFolder, LogPlace, mend_on, read_log, repair_on, retime_on};
use nl_tool_print::damage_to;
use nl_tool_texts::{AllocResult, ToolFault, ToolResult};
use nl_versions::{LogVersion, load_seen};
use std::alloc::Global;
use std::io::Write;
use std::mem;

/// What a word found that is to be made of a log.
#[derive(Drop)]
pub enum Due {
    Nothing,
    /// Only these outputs are kept.
    Keep(NameSet),
    /// These outputs get these mtimes.
    Touch(Vec<(Name, i64)>),
    /// Intents are put over the entries of these outputs of a log of the version, which is written anew without damaged lines.
    Mend(LogVersion, Vec<Name>),
}

pub trait Finds {
    // What it finds in these bytes, by what files are known, what the writer got, and what is left of it.
    ghost finds: { Self → Option (List ℕ → FileState) → Option (List ℕ) → Option (List ℕ) → Self → List ℕ → Result Due ToolFault → Type 0 };

    fn find<F: OutputFiles, W: Write>(
        &mut self,
        log: &[u8],
        files: &F,
        writer: &mut W,
    ) -> ToolResult<Due>
        ensures finds { finds self.old (F.states files.now) (W.contents writer.old) (W.contents writer.new) self.new log.now result };
}

/// The log that was read is the one that is changed. It answers whether nothing was due. It takes the memory of the log's bytes until the
/// word has looked at them.
pub fn settle<D: Folder, F: OutputFiles, W: Write, S: Finds>(
    alloc: Global,
    place: AskedFolder<D>,
    files: &F,
    writer: &mut W,
    word: &mut S,
) -> (AskedFolder<D>, ToolResult<bool>)
    ensures call { Settles (S.finds word.old (F.states files.now) (W.contents writer.old) (W.contents writer.new) word.new)
        ((W.contents writer.new ≡ W.contents writer.old) × (word.new ≡ word.old))
        place.asked result.1 (folder_view D.Folder place.folder) (folder_view D.Folder result.0.folder) }
{
    let AskedFolder {
        secret,
        asked,
        folder,
    } = place;
    let (folder, read) = read_log(alloc, folder);
    let place = AskedFolder {
        secret,
        asked,
        folder,
    };
    let found = match read {
        Ok(log) => word.find(log.as_slice(), files, writer),
        Err(fault) => return (place, Err(fault)),
    };
    match found {
        Ok(due) => {
            let none = is_nothing(&due);
            let (place, made) = make_due(alloc, place, due);
            (place, made.and(Ok(none)))
        }
        Err(fault) => (place, Err(fault)),
    }
}

fn is_nothing(due: &Due) -> bool
    ensures { result ≡ is_nothing due.now }
{
    matches!(due, Due::Nothing)
}

fn make_due<D: Folder>(
    alloc: Global,
    place: AskedFolder<D>,
    due: Due,
) -> (AskedFolder<D>, ToolResult)
    ensures call { IsMade place.asked due result.1 (folder_view D.Folder place.folder) (folder_view D.Folder result.0.folder) }
{
    match due {
        Due::Nothing => (place, Ok(())),
        Due::Keep(set) => place.change(alloc, &set),
        Due::Touch(times) => retime_on(alloc, place, &times),
        Due::Mend(version, names) => {
            let AskedFolder {
                secret,
                asked,
                folder,
            } = place;
            let (folder, made) = mend_on(alloc, secret, version, folder, names.as_slice());
            (
                AskedFolder {
                    secret,
                    asked,
                    folder,
                },
                made,
            )
        }
    }
}

// The table of a log that isn't damaged. None if it is, which is told then. A log of another version than the one that is asked for is
// refused first.
fn whole_table<W: Write>(
    alloc: Global,
    secret: Secret,
    asked: Option<LogVersion>,
    log: &[u8],
    writer: &mut W,
) -> ToolResult<Option<Table>>
    ensures whole { IfOk result (λ found. MatchOption found (TellsDamage asked log.now (W.contents writer.old) (W.contents writer.new))
        (λ table. IsWholeLog asked log.now table (W.contents writer.old) (W.contents writer.new))) }
    ensures untold { IfErr result (IsUntold asked log.now (W.contents writer.old) (W.contents writer.new)) }
{
    check_version(alloc, secret, asked, log)?;
    let table = load_table(alloc, secret, None, log)?;
    match damage_to(alloc, log, writer) {
        Ok(damaged) => Ok((!damaged).then_some(table)),
        Err(ToolFault::Write) => Err(ToolFault::Write),
        // The log is one, and no read of bytes that are there fails.
        Err(_) => Err(ToolFault::Memory),
    }
}

fn check_version(alloc: Global, secret: Secret, asked: Option<LogVersion>, log: &[u8]) -> ToolResult
    ensures accepts { OnOk result (IsAsked asked log.now) }
    ensures unloaded { IfErr result (IsUnloaded asked log.now) }
{
    if asked.is_some() {
        load_table(alloc, secret, asked, log)?;
    }
    Ok(())
}

fn load_table(
    alloc: Global,
    secret: Secret,
    asked: Option<LogVersion>,
    log: &[u8],
) -> ToolResult<Table>
    ensures reads { IfOk result (λ table. table_in (log_for asked log.now) ≡ Some table) }
    ensures unloaded { IfErr result (IsUnloaded asked log.now) }
{
    match load_seen(alloc, secret, asked, SliceSource::new(log)) {
        Ok((_, loaded)) => Ok(loaded.table),
        Err(LoadFault::NotALog) => Err(ToolFault::NotALog),
        Err(LoadFault::OtherVersion) => Err(ToolFault::OtherVersion),
        // No read of bytes that are there fails.
        Err(LoadFault::OutOfMemory | LoadFault::Read) => Err(ToolFault::Memory),
    }
}

#[derive(Drop)]
struct Prune {
    alloc: Global,
    secret: Secret,
    asked: Option<LogVersion>,
    targets: Vec<Name>,
}

impl Finds for Prune {
    ghost finds = { λ word states from to left. FindsKept word.asked word.targets.items states from to };

    #[tactic(auto, using(crate::proofs::SettleLemmas::few_kept))]
    fn find<F: OutputFiles, W: Write>(
        &mut self,
        log: &[u8],
        files: &F,
        writer: &mut W,
    ) -> ToolResult<Due> {
        let Some(table) = whole_table(self.alloc, self.secret, self.asked, log, writer)? else {
            return Ok(Due::Nothing);
        };
        let targets = mem::replace(&mut self.targets, Vec::new(self.alloc));
        match names_there(self.alloc, self.secret, &table, files, targets) {
            Ok(set) => Ok(Due::Keep(set)),
            Err(fault) => Err(fault),
        }
    }
}

/// It drops each output that is neither a target nor has a file, unless more would go than stay (`Elsewhere`). If the log is damaged, that
/// is written, and nothing else is done: the answer is then true. Names are hashed under the place's secret.
#[tactic(auto, using(crate::proofs::SettleLemmas::settles_less, crate::proofs::SettleLemmas::pruned))]
pub fn prune_to<D: Folder, F: OutputFiles, W: Write>(
    alloc: Global,
    place: AskedFolder<D>,
    files: &F,
    targets: Vec<Name>,
    writer: &mut W,
) -> (AskedFolder<D>, ToolResult<bool>)
    ensures call { Settles (FindsKept place.asked targets.items (F.states files.now) (W.contents writer.old) (W.contents writer.new))
        (W.contents writer.new ≡ W.contents writer.old)
        place.asked result.1 (folder_view D.Folder place.folder) (folder_view D.Folder result.0.folder) }
    ensures faults { IfErr result.1 IsPruned }
{
    let mut word = Prune {
        alloc,
        secret: place.secret,
        asked: place.asked,
        targets,
    };
    settle(alloc, place, files, writer, &mut word)
}

#[derive(Drop)]
struct Retime {
    alloc: Global,
    secret: Secret,
    asked: Option<LogVersion>,
    // The name of the first output whose file has a negative time.
    early: Vec<u8>,
}

impl Finds for Retime {
    ghost finds = { λ word states from to left. FindsTimes word.asked states from to left.early.items };

    #[tactic(auto, using(crate::proofs::SettleLemmas::not_looked))]
    fn find<F: OutputFiles, W: Write>(
        &mut self,
        log: &[u8],
        files: &F,
        writer: &mut W,
    ) -> ToolResult<Due> {
        let Some(table) = whole_table(self.alloc, self.secret, self.asked, log, writer)? else {
            return Ok(Due::Nothing);
        };
        let Ok(times) = times_there(self.alloc, &table, files) else {
            return Err(ToolFault::Memory);
        };
        let given = times.as_slice();
        let Some(at) = first_negative(given) else {
            return Ok(Due::Touch(times));
        };
        match note_early(given, at, &mut self.early) {
            Ok(()) => Err(ToolFault::NegativeTime(at)),
            Err(_) => Err(ToolFault::Memory),
        }
    }
}

fn note_early(times: &[(Name, i64)], at: usize, early: &mut Vec<u8>) -> AllocResult
    requires there { at < length times.now }
    ensures named { OnOk result (IsSomeAnd (slice_get times.now at) (λ pair. pair.0 ≡ early.new.items)) }
{
    early.clear();
    let (name, _) = &times[at];
    early.extend_from_slice(name.bytes())?;
    Ok(())
}

/// It gives each output the time of its file, if that has one and its entry is no intent. If such a time is negative, nothing is changed,
/// and the name of the first output with one is left in `early`. If the log is damaged, that is written, and nothing else is done: the
/// answer is then true.
#[tactic(auto, using(crate::proofs::SettleLemmas::settles_less, crate::proofs::SettleLemmas::retimed))]
pub fn retime_to<D: Folder, F: OutputFiles, W: Write>(
    alloc: Global,
    place: AskedFolder<D>,
    files: &F,
    writer: &mut W,
    early: &mut Vec<u8>,
) -> (AskedFolder<D>, ToolResult<bool>)
    ensures call { Settles (FindsTimes place.asked (F.states files.now) (W.contents writer.old) (W.contents writer.new) early.new.items)
        (W.contents writer.new ≡ W.contents writer.old)
        place.asked result.1 (folder_view D.Folder place.folder) (folder_view D.Folder result.0.folder) }
    ensures faults { IfErr result.1 IsRetimed }
{
    let mut word = Retime {
        alloc,
        secret: place.secret,
        asked: place.asked,
        early: Vec::new(alloc),
    };
    let (place, answer) = settle(alloc, place, files, writer, &mut word);
    *early = word.early;
    (place, answer)
}

/// It writes the log anew with the last entry of each output and without damaged lines, before anything of it is cut. There is nothing to
/// look at beside the log, which is read and changed as one.
pub fn repair_to<D: Folder>(alloc: Global, place: AskedFolder<D>) -> (AskedFolder<D>, ToolResult)
    ensures call { MendsLogFor place.asked [] result.1 (folder_view D.Folder place.folder) (folder_view D.Folder result.0.folder) }
    ensures changes { ChangesLogFor place.asked (λ _. keeping_all) result.1 (folder_view D.Folder place.folder) (folder_view D.Folder result.0.folder) }
    ensures repairs { RepairsFor place.asked result.1 (D.disk place.folder) (D.disk result.0.folder) }
    ensures faults { IfErr result.1 IsRecordFault }
{
    repair_on(alloc, place)
}
