//! Where a log stands that is changed: in a folder, as it is, or as one of the version that is asked for.
ghost use Rattle.std.specs.Prelude.{◌≡◌, ℕ, [], List, Result, IfErr, OnOk};
ghost use Rattle.nl_tool_texts.specs.declared.fault.ToolFault.{ToolFault};
ghost use Rattle.nl_tool_change.specs.{Calls.{ChangesLog, ChangesLogAs, ChangesLogFor, IsFaultBy, IsFree, Meaning, Repairs, RepairsFor, keeping_all, Makes}, Faults.{IsRecordFault, IsOpenOrChangeRefusal, of_log_answer, of_log_fault}, Mending.{MendsLog, MendsLogAs, MendsLogFor}};
ghost use Rattle.nl_folder.specs.FolderView.{folder_view};
ghost use Rattle.nl_session.specs.{LogView.{view_of}, declared.fault.LogState.{LogState}};

use crate::reading::look_for;
use crate::seen::SeenLog;
use nl_fields::Name;
use nl_folder::Folder;
use nl_session::{Log, LogFault};
use nl_table::{KeepAll, NO_SECRET, Secret};
use nl_tool_texts::{ToolFault, ToolResult};
use nl_versions::LogVersion;
use std::alloc::Global;

/// What a log answers.
pub type LogResult<T = ()> = Result<T, LogFault>;

pub trait Change {
    ghost meaning: { Self → Meaning };

    fn make<F: Folder>(&self, log: &mut Log<F>) -> LogResult
        requires open { (view_of log.old).mode ≡ LogState.Open }
        ensures call { Makes (meaning self.now) result (view_of log.old) (view_of log.new) };
}

/// The first refusal ends it, and what was done before stands.
pub fn change_log<F: Folder, C: Change>(log: &mut Log<F>, change: &C) -> LogResult
    requires closed { (view_of log.old).mode ≡ LogState.Closed }
    ensures call { ChangesLog (C.meaning change.now) (of_log_answer result) (view_of log.old).folder (view_of log.new).folder }
    ensures refusals { IfErr result IsOpenOrChangeRefusal }
    ensures closed { OnOk result ((view_of log.new).mode ≡ LogState.Closed) }
{
    log.open(&KeepAll)?;
    change.make(log)?;
    log.sync()?;
    log.stop()
}

/// The fault of a log, as the tool says it.
pub fn of_log_fault(fault: LogFault) -> ToolFault
    requires { IsOpenOrChangeRefusal fault }
    ensures value { result ≡ of_log_fault fault }
{
    match fault {
        LogFault::NegativeTime(index) => ToolFault::NegativeTime(index),
        LogFault::NotALog => ToolFault::NotALog,
        LogFault::OtherVersion => ToolFault::OtherVersion,
        LogFault::OutOfMemory => ToolFault::Memory,
        LogFault::Fault => ToolFault::Folder,
        LogFault::NotOpen | LogFault::AlreadyOpen | LogFault::Broken => unreachable!(),
    }
}

/// Each folder is a place, whose log is changed as it is.
pub trait LogPlace: Sized {
    // What a change makes of the place, by what it means and by its answer.
    ghost changes: { Meaning → Result (Unit {0}) ToolFault → Self → Self → Type 0 };

    // What a change that drops nothing makes of the place.
    ghost repairs: { Result (Unit {0}) ToolFault → Self → Self → Type 0 };

    // What a mend of these outputs makes of the place.
    ghost mends: { List (List ℕ) → Result (Unit {0}) ToolFault → Self → Self → Type 0 };

    fn secret(&self) -> Secret;

    fn change<C: Change>(self, alloc: Global, change: &C) -> (Self, ToolResult)
        ensures call { changes (C.meaning change.now) result.1 self result.0 }
        ensures repairs { C.meaning change.now ≡ keeping_all → repairs result.1 self result.0 }
        ensures faults { IfErr result.1 (IsFaultBy (C.meaning change.now)) };

    /// The scratch is written before anything of the log is cut, so a log that isn't mended is the one that was found. With no names it is
    /// a change that keeps all.
    fn mend(self, alloc: Global, names: &[Name]) -> (Self, ToolResult)
        ensures call { mends names.now result.1 self result.0 }
        ensures keeps { names.now ≡ [] → changes keeping_all result.1 self result.0 }
        ensures repairs { names.now ≡ [] → repairs result.1 self result.0 }
        ensures faults { IfErr result.1 IsRecordFault };
}

/// The log is one of the version that is asked for, or else of the one that its first line names. Names are hashed under the secret.
#[derive(Drop)]
pub struct AskedFolder<F> {
    pub secret: Secret,
    pub asked: Option<LogVersion>,
    pub folder: F,
}

impl<F: Folder> LogPlace for F {
    ghost changes = { λ m result old new. ChangesLog m result (folder_view F.Folder old) (folder_view F.Folder new) };

    ghost repairs = { λ result old new. Repairs result (F.disk old) (F.disk new) };

    ghost mends = { λ names result old new. MendsLog names result (folder_view F.Folder old) (folder_view F.Folder new) };

    fn secret(&self) -> Secret {
        NO_SECRET
    }

    fn change<C: Change>(self, alloc: Global, change: &C) -> (F, ToolResult) {
        change_found(alloc, NO_SECRET, LogVersion::Five, self, change)
    }

    fn mend(self, alloc: Global, names: &[Name]) -> (F, ToolResult) {
        mend_on(alloc, NO_SECRET, LogVersion::Five, self, names)
    }
}

// The log is one of the version, or is taken for one.
pub(crate) fn change_found<F: Folder, C: Change>(
    alloc: Global,
    secret: Secret,
    version: LogVersion,
    folder: F,
    change: &C,
) -> (F, ToolResult)
    ensures call { IsFree (F.disk folder) version → ChangesLogAs version (C.meaning change.now)
        result.1 (folder_view F.Folder folder) (folder_view F.Folder result.0) }
    ensures faults { IfErr result.1 (IsFaultBy (C.meaning change.now)) }
{
    let mut log = SeenLog::new(alloc, secret, version, folder);
    let result = log.change(change).map_err(of_log_fault);
    (log.into_parts().1, result)
}

impl<F: Folder> LogPlace for AskedFolder<F> {
    ghost changes = { λ m result old new. ChangesLogFor old.asked (λ _. m) result
        (folder_view F.Folder old.folder) (folder_view F.Folder new.folder) };

    ghost repairs = { λ result old new. RepairsFor old.asked result (F.disk old.folder) (F.disk new.folder) };

    ghost mends = { λ names result old new. MendsLogFor old.asked names result
        (folder_view F.Folder old.folder) (folder_view F.Folder new.folder) };

    fn secret(&self) -> Secret {
        self.secret
    }

    fn change<C: Change>(self, alloc: Global, change: &C) -> (Self, ToolResult) {
        let (folder, looked) = look_for(self.asked, self.folder);
        match looked {
            Ok(version) => {
                let (folder, result) = change_found(alloc, self.secret, version, folder, change);
                (AskedFolder { folder, ..self }, result)
            }
            Err(fault) => (AskedFolder { folder, ..self }, Err(of_log_fault(fault))),
        }
    }

    fn mend(self, alloc: Global, names: &[Name]) -> (Self, ToolResult) {
        let (folder, looked) = look_for(self.asked, self.folder);
        match looked {
            Ok(version) => {
                let (folder, result) = mend_on(alloc, self.secret, version, folder, names);
                (AskedFolder { folder, ..self }, result)
            }
            Err(fault) => (AskedFolder { folder, ..self }, Err(of_log_fault(fault))),
        }
    }
}

/// It makes the intents over the entries of outputs that can't be trusted durable, by one change. Damaged lines are gone then, because the
/// log is written anew.
pub fn mend_on<F: Folder>(
    alloc: Global,
    secret: Secret,
    version: LogVersion,
    folder: F,
    names: &[Name],
) -> (F, ToolResult)
    ensures call { IsFree (F.disk folder) version → MendsLogAs version names.now
        result.1 (folder_view F.Folder folder) (folder_view F.Folder result.0) }
    ensures faults { IfErr result.1 IsRecordFault }
{
    let mut seen = SeenLog::new(alloc, secret, version, folder);
    let result = seen.mend(names).map_err(of_log_fault);
    (seen.into_parts().1, result)
}
