//! What the files of a log's outputs are: which are there, and when each was written.
ghost use Rattle.std.specs.{Prelude.{◌≡◌, ℕ, List, Option, IfOk, IfSome, ◌++◌, ◌⊎◌, [], FitsSigned, IfErr, IsErrOf, OnOk, flat_map}, Int.{w64}};
ghost use Rattle.nl_tool_doubt.specs.{Doubts.{AreLooked}, Judging.{is_present, is_written, was_moved}, declared.files.FileState.{FileState}, There.{AddsFor, FitEntries, KeepsMost, LosesMost, learned, name_by, pair_by}};
ghost use Rattle.nl_tool_texts.specs.declared.fault.ToolFault.{ToolFault};

use nl_fields::{Entry, EntryRef, Name, is_intent};
use nl_table::{NameSet, Secret, Table};
use nl_tool_texts::{AllocResult, ToolFault, ToolResult};
use std::alloc::Global;

const SECOND: i128 = 1_000_000_000;

#[derive(Clone, Copy, Drop)]
pub enum FileState {
    Missing,
    Directory,
    Written(FileTimes),
    /// Nobody can tell, for example because the file may not be looked at.
    Unknown,
}

impl FileState {
    /// A file that can't be looked at is taken to be there.
    pub fn is_there(self) -> bool
        ensures { result ≡ is_present self }
    {
        !matches!(self, FileState::Missing)
    }

    pub fn is_written(self) -> bool
        ensures { result ≡ is_written self }
    {
        matches!(self, FileState::Written(_))
    }

    /// It was changed more than a second after it was written.
    pub fn was_moved(self) -> bool
        ensures { result ≡ was_moved self }
    {
        match self {
            FileState::Written(at) => i128::from(at.written) + SECOND < i128::from(at.changed),
            _ => false,
        }
    }
}

/// The times of a file, in nanoseconds since 1970, as Ninja counts them.
#[derive(Clone, Copy, Drop)]
pub struct FileTimes {
    /// The time of its last write, or the one that it was given.
    pub written: i64,
    /// The time of its last change, which nobody can give it.
    pub changed: i64,
}

pub trait OutputFiles {
    // The state of the file of each name, where that is known, and nothing changes it.
    ghost states: { Self → Option (List ℕ → FileState) };

    fn look(&self, name: &[u8]) -> FileState
        ensures known { IfSome (states self.now) (λ state_of. result ≡ state_of name.now) };
}

#[derive(Drop)]
pub struct Looked<'a> {
    pub entry: EntryRef<'a>,
    pub file: FileState,
}

/// It asks for the file of each output once, in order.
pub(crate) fn look_all<'a, F: OutputFiles>(
    alloc: Global,
    table: &'a Table,
    files: &F,
) -> AllocResult<Vec<Looked<'a>>>
    ensures looked { IfOk result (λ looked. AreLooked table.now (F.states files.now) looked.items) }
{
    let mut looked = Vec::with_capacity(alloc, table.len())?;
    for place in 0..table.len() {
        if let Some(entry) = table.at(place) {
            let file = files.look(entry.name());
            looked.push(Looked { entry, file })?;
        }
    }
    Ok(looked)
}

/// The targets, and each output of the table whose file isn't missing: the file of each is asked for, in the order of first appearance. If
/// there are more outputs that are neither than others, the folder is that of another build, and nothing is to be dropped (`Elsewhere`).
pub(crate) fn names_there<F: OutputFiles>(
    alloc: Global,
    secret: Secret,
    table: &Table,
    files: &F,
    targets: Vec<Name>,
) -> ToolResult<NameSet>
    ensures kept { IfOk result (KeepsMost table.now (F.states files.now) targets.items) }
    ensures elsewhere { IsErrOf result ToolFault.Elsewhere → (set : List (List ℕ))
        × LosesMost table.now (F.states files.now) targets.items set }
    ensures faults { IfErr result (λ e. (e ≡ ToolFault.Memory) ⊎ (e ≡ ToolFault.Elsewhere)) }
{
    let looked = look_all(alloc, table, files)?;
    let mut names = targets;
    add_names(alloc, looked.as_slice(), &mut names)?;
    let set = NameSet::of(alloc, secret, names)?;
    let kept = looked.iter().filter(|it| set.has(it.entry.name())).count();
    if kept < looked.len() - kept {
        return Err(ToolFault::Elsewhere);
    }
    Ok(set)
}

/// It asks for the file of each output of the table, in the order of first appearance, and gives the time of each that has one. An output
/// whose last entry is an intent is passed over, because with a time stamp a command passes for it.
pub(crate) fn times_there<F: OutputFiles>(
    alloc: Global,
    table: &Table,
    files: &F,
) -> AllocResult<Vec<(Name, i64)>>
    ensures given { IfOk result (λ times. AddsFor pair_by table.now (F.states files.now) [] times.items) }
    ensures fit { IfOk result (λ times. FitEntries times.items) }
{
    let looked = look_all(alloc, table, files)?;
    times_of(alloc, looked.as_slice())
}

fn add_names(alloc: Global, looked: &[Looked], names: &mut Vec<Name>) -> AllocResult
    ensures items { OnOk result (names.new.items ≡ names.old.items ++ flat_map (learned name_by) looked.now) }
{
    for it in looked {
        if !matches!(it.file, FileState::Missing) {
            names.push(Entry::of(alloc, &it.entry)?.name)?;
        }
    }
    Ok(())
}

fn times_of(alloc: Global, looked: &[Looked]) -> AllocResult<Vec<(Name, i64)>>
    ensures items { IfOk result (λ times. times.items ≡ flat_map (learned pair_by) looked.now) }
    ensures fit { IfOk result (λ times. FitEntries times.items) }
{
    let mut times = Vec::new(alloc);
    for it in looked {
        let FileState::Written(at) = it.file else {
            continue;
        };
        if !is_intent(&it.entry) {
            times.push(timed(Entry::of(alloc, &it.entry)?.name, at.written))?;
        }
    }
    Ok(times)
}

fn timed(name: Name, mtime: i64) -> (Name, i64)
    ensures value { result ≡ (name, mtime) }
    ensures fits { FitsSigned w64 mtime }
{
    (name, mtime)
}
