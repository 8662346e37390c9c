//! The calls that only the library's own C makes: they load a log in pieces, or serve a log that its caller carries to a file.
ghost use Rattle.std.specs.Prelude.{◌≡◌, ◌≢◌, ◌↔◌, ◌⊎◌, ◌++◌, ℕ, List, None, IsSomeAnd, option_and_then};
ghost use Rattle.nl_c.specs.{LoadedLogs.{IsLoadedAs}, CarriedLogs.{IsNewCarried, CarriedOpened, Keeps, Anew, CarriedWritten, CarriedText, CarriedHeader, CarriedLine, Ends, Planned, Withdrawn, LooseLine, intent_stamp}, Held.{InCarried, IsCarriedAnd, all_of, loaded_in, loaded_of}, Written.{Recorded, Begun, Synced, Stopped, Recompacted, Restatted, DeadMarked, TimeMarked, Cleared}, Statuses.{ok, no_handle, out_of_memory}};

use crate::carried_log::{CarriedLog, all_of};
use crate::exports::lent;
use crate::handle::{Handle, Held};
use crate::marks::is_planned;
use crate::{look_up, status};
use nl_fields::{EntryRef, Name, NameFault, Stamp};
use nl_session::LogState;
use nl_table::{Secret, Table};
use std::alloc::Global;

// Gives the log that a handle carries to a call, and puts it back. Where there is none, nothing is changed.
macro_rules! carried {
    ($handle:ident, $alloc:ident, $log:ident => $call:expr) => {
        lent!($handle, $alloc, as_mut, Held::Carried($log) => $call)
    };
}

/// Call it after a load whose bytes ended in a newline, or after another call of this. If it fails, it frees the log.
#[unsafe(no_mangle)]
pub extern "C" fn carried_more(handle: &mut Handle, alloc: Global, bytes: &[u8]) -> u32
    ensures ok { result ≡ ok → (asked : ℕ) (before : List ℕ)
        → IsSomeAnd handle.old.kept.log (λ held. IsSomeAnd (loaded_of held) (IsLoadedAs asked before))
        → IsSomeAnd handle.new.kept.log (λ held. IsSomeAnd (loaded_of held) (IsLoadedAs asked (before ++ bytes.now))) }
    ensures refusals { (result ≡ ok) ⊎ (result ≡ no_handle) ⊎ (result ≡ out_of_memory) }
    ensures absent { (result ≡ no_handle) ↔ (loaded_in handle.old.kept.log ≡ None) }
    ensures gone { result ≢ ok → handle.new.kept.log ≡ None }
{
    let Some(mut held) = handle.take(alloc) else {
        return status::NO_HANDLE;
    };
    let Held::Loaded(log) = &mut *held else {
        return status::NO_HANDLE;
    };
    if log.load_more(bytes).is_err() {
        return status::OUT_OF_MEMORY;
    }
    *handle = Handle::of(held);
    status::OK
}

/// Frees what the handle held, unless memory is lacking.
#[unsafe(no_mangle)]
pub extern "C" fn carried_new(handle: &mut Handle, alloc: Global, key0: u64, key1: u64) -> u32
    ensures ok { result ≡ ok → IsSomeAnd handle.new.kept.log (IsCarriedAnd IsNewCarried) }
    ensures refusals { (result ≡ ok) ⊎ (result ≡ out_of_memory) }
    ensures unchanged { result ≢ ok → handle.new.kept.log ≡ handle.old.kept.log }
{
    let secret = Secret::of(key0, key1);
    handle.put(alloc, Held::Carried(CarriedLog::new(alloc, secret)))
}

/// Opens what was loaded into another handle, and frees that one's log whatever the status. If a whole log is wanted, one with a line that is
/// no entry, or a torn one, is answered as not found.
#[unsafe(no_mangle)]
pub extern "C" fn carried_open(
    handle: &mut Handle,
    alloc: Global,
    found: &mut Handle,
    wants_whole: bool,
    change: &mut u32,
) -> u32
    ensures call { (asked : ℕ) (bytes : List ℕ) → IsSomeAnd (loaded_in found.old.kept.log) (IsLoadedAs asked bytes)
        → InCarried (CarriedOpened asked bytes wants_whole (change.old, change.new)) result handle.old.kept.log handle.new.kept.log }
    ensures other { option_and_then all_of found.old.kept.log ≡ None → (result ≡ no_handle) × (handle.new.kept.log ≡ handle.old.kept.log) }
    ensures used { found.new.kept.log ≡ None }
{
    let Some(Held::Loaded(log)) = found.take(alloc).map(Box::into_inner) else {
        return status::NO_HANDLE;
    };
    if !log.is_all {
        return status::NO_HANDLE;
    }
    carried!(handle, alloc, carried => carried.open(alloc, log, wants_whole, change))
}

/// The line waits until the caller carries it.
#[unsafe(no_mangle)]
pub extern "C" fn carried_record(
    handle: &mut Handle,
    alloc: Global,
    name: &[u8],
    stamp: &Stamp,
) -> u32
    ensures call { InCarried (Ends name.now (Recorded name.now stamp.now)) result handle.old.kept.log handle.new.kept.log }
{
    carried!(handle, alloc, log => log.record(name, stamp))
}

/// Adds nothing if the name's entry is such an intent already.
#[unsafe(no_mangle)]
pub extern "C" fn carried_begin(
    handle: &mut Handle,
    alloc: Global,
    name: &[u8],
    moment_ms: i32,
    hash: u64,
) -> u32
    ensures call { InCarried (Ends name.now (Begun name.now moment_ms hash)) result handle.old.kept.log handle.new.kept.log }
{
    carried!(handle, alloc, log => log.begin(name, moment_ms, hash))
}

/// Fills the stamp with the entry that the intent covers. A name without an entry gets an intent only where the caller wants one.
#[unsafe(no_mangle)]
pub extern "C" fn carried_plan(
    handle: &mut Handle,
    alloc: Global,
    name: &[u8],
    moment_ms: i32,
    hash: u64,
    anew: bool,
    before: &mut Stamp,
) -> u32
    ensures call { InCarried (Planned name.now (intent_stamp moment_ms hash) anew (before.old, before.new)) result handle.old.kept.log handle.new.kept.log }
{
    carried!(handle, alloc, log => log.plan(name, moment_ms, hash, anew, before))
}

/// Adds nothing where the plan of the name has ended.
#[unsafe(no_mangle)]
pub extern "C" fn carried_withdraw(
    handle: &mut Handle,
    alloc: Global,
    name: &[u8],
    before: &Stamp,
) -> u32
    ensures call { InCarried (Withdrawn name.now before.now) result handle.old.kept.log handle.new.kept.log }
{
    carried!(handle, alloc, log => {
        if is_planned(&log.plans, name) { log.record(name, before) } else { status::NOT_FOUND }
    })
}

/// Spells the line without adding it to the text: whoever writes it to the file gives it back later.
#[unsafe(no_mangle)]
pub extern "C" fn carried_loose_line(
    handle: &mut Handle,
    alloc: Global,
    name: &[u8],
    stamp: &Stamp,
    bytes: &mut [u8],
    len: &mut usize,
) -> u32
    ensures call { InCarried (LooseLine name.now stamp.now (bytes.old, bytes.new) (len.old, len.new)) result handle.old.kept.log handle.new.kept.log }
{
    carried!(handle, alloc, log => log.loose_line(name, stamp, bytes, len))
}

/// Call it after the file was written: no line waits then.
#[unsafe(no_mangle)]
pub extern "C" fn carried_written(handle: &mut Handle, alloc: Global, len: u64) -> u32
    ensures call { InCarried (CarriedWritten len) result handle.old.kept.log handle.new.kept.log }
{
    carried!(handle, alloc, log => {
        if log.written.log.state() != LogState::Open {
            status::NOT_OPEN
        } else if log.written.log.folder().len() != len {
            status::NOT_FOUND
        } else {
            log.carried = all_of(&log.written, &mut log.waits);
            status::OK
        }
    })
}

/// Call it after the file was synced.
#[unsafe(no_mangle)]
pub extern "C" fn carried_sync(handle: &mut Handle, alloc: Global) -> u32
    ensures call { InCarried (Keeps Synced) result handle.old.kept.log handle.new.kept.log }
{
    carried!(handle, alloc, log => status::of_answer(log.written.log.sync()))
}

#[unsafe(no_mangle)]
pub extern "C" fn carried_recompact(handle: &mut Handle, alloc: Global) -> u32
    ensures call { InCarried (Anew Recompacted) result handle.old.kept.log handle.new.kept.log }
{
    carried!(handle, alloc, log => log.recompact(alloc))
}

/// If a marked mtime is negative, `place` tells which.
#[unsafe(no_mangle)]
pub extern "C" fn carried_restat(handle: &mut Handle, alloc: Global, place: &mut usize) -> u32
    ensures call { InCarried (Anew (Restatted (place.old, place.new))) result handle.old.kept.log handle.new.kept.log }
{
    carried!(handle, alloc, log => log.restat(alloc, place))
}

/// Frees the table and the lines that wait.
#[unsafe(no_mangle)]
pub extern "C" fn carried_close(handle: &mut Handle, alloc: Global) -> u32
    ensures call { InCarried (Anew Stopped) result handle.old.kept.log handle.new.kept.log }
{
    carried!(handle, alloc, log => log.stop(alloc))
}

#[unsafe(no_mangle)]
pub extern "C" fn carried_mark_dead(handle: &mut Handle, alloc: Global, name: &[u8]) -> u32
    ensures call { InCarried (Keeps (DeadMarked name.now)) result handle.old.kept.log handle.new.kept.log }
{
    carried!(handle, alloc, log => match EntryRef::new(0, 0, 0, name, 0) {
        Ok(entry) => status::of_room(log.written.marks.dead.enter(&entry)),
        Err(_) => status::BAD_NAME,
    })
}

#[unsafe(no_mangle)]
pub extern "C" fn carried_mark_time(
    handle: &mut Handle,
    alloc: Global,
    name: &[u8],
    mtime: i64,
) -> u32
    ensures call { InCarried (Keeps (TimeMarked name.now mtime)) result handle.old.kept.log handle.new.kept.log }
{
    carried!(handle, alloc, log => match Name::read(alloc, name) {
        Ok(name) => status::of_room(log.written.marks.times.push((name, mtime))),
        Err(NameFault::OutOfMemory) => status::OUT_OF_MEMORY,
        Err(_) => status::BAD_NAME,
    })
}

#[unsafe(no_mangle)]
pub extern "C" fn carried_clear_marks(handle: &mut Handle, alloc: Global) -> u32
    ensures call { InCarried (Keeps Cleared) result handle.old.kept.log handle.new.kept.log }
{
    carried!(handle, alloc, log => {
        let secret = log.written.marks.dead.secret();
        log.written.marks.dead = Table::with_secret(alloc, secret);
        log.written.marks.times = Vec::new(alloc);
        status::OK
    })
}

/// Gives only bytes that weren't carried yet, and the length of the whole text.
#[unsafe(no_mangle)]
pub extern "C" fn carried_text(
    handle: &mut Handle,
    alloc: Global,
    from: u64,
    bytes: &mut [u8],
    len: &mut u64,
) -> u32
    ensures call { InCarried (CarriedText from (bytes.old, bytes.new) (len.old, len.new)) result handle.old.kept.log handle.new.kept.log }
{
    carried!(handle, alloc, log => log.text(from, bytes, len))
}

#[unsafe(no_mangle)]
pub extern "C" fn carried_header(handle: &mut Handle, alloc: Global, bytes: &mut [u8]) -> u32
    ensures call { InCarried (CarriedHeader (bytes.old, bytes.new)) result handle.old.kept.log handle.new.kept.log }
{
    carried!(handle, alloc, log => log.header(bytes))
}

#[unsafe(no_mangle)]
pub extern "C" fn carried_line(
    handle: &mut Handle,
    alloc: Global,
    place: usize,
    bytes: &mut [u8],
    len: &mut usize,
) -> u32
    ensures call { InCarried (CarriedLine place (bytes.old, bytes.new) (len.old, len.new)) result handle.old.kept.log handle.new.kept.log }
{
    carried!(handle, alloc, log => match log.written.log.table() {
        Some(table) => match table.at(place) {
            Some(entry) => look_up::spell(&entry, &mut log.line, bytes, len),
            None => status::NOT_FOUND,
        },
        None => status::NOT_OPEN,
    })
}
