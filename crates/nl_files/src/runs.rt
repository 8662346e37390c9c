//! Runs of events on a log over the files of a system that can lose its power.
ghost use Rattle.std.specs.{Prelude.{◌≡◌, [], IfOk, IsSomeAnd, Some, option_map, slice_get, zip}, Option.{ForSome}};
ghost use Rattle.nl_table.specs.{History.{History}, Log.{history_of}};
ghost use Rattle.nl_folder.specs.DiskState.{Disk};
ghost use Rattle.nl_session.specs.{Reopening.{Moved}, Runs.{BeginsAt, Ran, HeadlineOn, TakesMemory}};
ghost use Rattle.nl_files.specs.{Start.{IsAtStart, begun}, FileFolder.{begun_view, system_of, state_of}, RunsOver.{RunsFrom}, MemSystem.{no_files}};

use crate::{CrashableSystem, FileFolder, MemSystem};
use nl_session::{Event, Outcome, Reply, run_events};
use std::alloc::{AllocError, Global};
use std::collections::VecDeque;

/// The events as `run_events` has them, on a new log over the files of a system. Err only if memory is wanting for what the folder holds.
pub fn run_over_system<S: CrashableSystem + Drop>(
    alloc: Global,
    system: S,
    events: &[Event],
) -> Result<(FileFolder<S>, Vec<Reply>, Outcome), AllocError>
    requires begins { ForSome (S.System.model system) IsAtStart }
    ensures headline { (start : History) → BeginsAt start (option_map begun (S.System.model system))
        → IfOk result (λ r. HeadlineOn start (zip events.now r.1.items) (state_of r.0).disk) }
    ensures run { (start : History) → BeginsAt start (option_map begun (S.System.model system)) → IfOk result
        (λ r. Ran start events.now r.1.items (state_of r.0).disk (state_of r.0).is_settled) }
    ensures disks { (d : Disk) → option_map begun (S.System.model system) ≡ Some d
        → IfOk result (λ r. Moved (option_map begun (S.System.model system)) (zip events.now r.1.items) (state_of r.0).disk) }
    ensures runs { IfOk result (λ r. RunsFrom (begun_view (S.System.model system)) events.now r.0 r.1.items r.2) }
    ensures untouched { IfOk result (λ r. r.1.items ≡ [] → ¬ IsSomeAnd (slice_get events.now 0) TakesMemory → system_of r.0 ≡ system) }
{
    let folder = FileFolder::new(system, alloc)?;
    Ok(run_events(alloc, folder, events))
}

/// The same over a system in memory without files, which fails and crashes as it is told. The headline holds of it without a premise.
pub fn run_in_memory(
    alloc: Global,
    plan: VecDeque<u64>,
    events: &[Event],
) -> Result<(FileFolder<MemSystem>, Vec<Reply>, Outcome), AllocError>
    ensures headline { (start : History) → history_of [] ≡ Some start
        → IfOk result (λ r. HeadlineOn start (zip events.now r.1.items) (state_of r.0).disk) }
    ensures run { (start : History) → history_of [] ≡ Some start → IfOk result
        (λ r. Ran start events.now r.1.items (state_of r.0).disk (state_of r.0).is_settled) }
    ensures disks { IfOk result (λ r. Moved (Some (begun no_files)) (zip events.now r.1.items) (state_of r.0).disk) }
    ensures runs { IfOk result (λ r. RunsFrom (begun_view (Some no_files)) events.now r.0 r.1.items r.2) }
    ensures untouched { IfOk result
        (λ r. r.1.items ≡ [] → ¬ IsSomeAnd (slice_get events.now 0) TakesMemory → (system_of r.0).plan.items ≡ plan.items) }
{
    run_over_system(alloc, MemSystem::new(alloc, plan), events)
}
