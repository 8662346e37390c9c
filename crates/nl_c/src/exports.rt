//! The exported calls: each takes the log out of its handle and puts it back, and one that makes a log is given a secret to hash names under.
ghost use Rattle.std.specs.Prelude.{◌≡◌, ◌↔◌, ◌⊎◌};
ghost use Rattle.nl_fields.specs.{CommandHash.{IsHash, hash_of}, RapidHash.{rapid_hash_of}, Name.{IsName}};
ghost use Rattle.nl_table.specs.Log.{NotALog, OtherVersion, log_of};
ghost use Rattle.nl_versions.specs.VersionOf.{as_five};
ghost use Rattle.nl_c.specs.{LoadedLogs.{IsDistrustedFrom, IsLoadedAs}, Answers.{answered_at, answered_count, answered_facts, answered_find, answer_line}, Held.{LoadsInto, loaded_in, table_in}, Written.{NamesNoLog, NamesOther}, Statuses.{ok, bad_name, text_in, status_text}};

use crate::handle::{Handle, Held};
use crate::loaded_log::{Facts, LoadedLog};
use crate::{look_up, status};
use nl_distrust::distrusted;
use nl_fields::{
    MAX_LINE, Stamp, command_hash, command_hash_v7, name_fault, read_entry, read_entry_v4,
};
use nl_table::{OLDEST_VERSION, Secret, is_due};
use std::alloc::Global;

// Gives what a handle has to a call, and puts it back.
macro_rules! lent {
    ($handle:ident, $alloc:ident, $what:ident, $it:pat => $call:expr) => {{
        let Some(mut held) = $handle.take($alloc) else {
            return status::NO_HANDLE;
        };
        let answer = match held.$what() {
            $it => $call,
            _ => status::NO_HANDLE,
        };
        *$handle = Handle::of(held);
        answer
    }};
}

pub(crate) use lent;

/// The version of the library: 1000000 times the first number, 1000 times the second, and the third.
#[unsafe(no_mangle)]
pub extern "C" fn nlog_version() -> u32
    ensures { result ≡ 2000 }
{
    2000
}

/// Cuts the text to the buffer and ends it with a NUL. The result is the length of the whole text, in bytes.
#[unsafe(no_mangle)]
pub extern "C" fn nlog_status_text(status: u32, buf: &mut [u8]) -> usize
    ensures { (result, buf.new) ≡ text_in (status_text status) buf.old }
{
    let text = status::text(status);
    if !buf.is_empty() {
        let len = text.len().min(buf.len() - 1);
        buf[..len].copy_from_slice(&text[..len]);
        buf[len..len + 1].copy_from_slice(b"\0");
    }
    text.len()
}

/// Loads a log of the version, or of the one that its first line names where the version is 0. Frees the log that the handle had before; a
/// load that is refused leaves that log.
#[unsafe(no_mangle)]
pub extern "C" fn nlog_load(
    handle: &mut Handle,
    alloc: Global,
    version: u32,
    key0: u64,
    key1: u64,
    bytes: &[u8],
) -> u32
    ensures { LoadsInto (IsLoadedAs version bytes.now) (NamesNoLog version bytes.now) (NamesOther version bytes.now) result
        handle.old.kept.log handle.new.kept.log }
{
    match LoadedLog::load(alloc, version, Secret::of(key0, key1), bytes) {
        Ok(log) => handle.put(alloc, Held::Loaded(log)),
        Err(fault) => status::of_log_fault(fault.into()),
    }
}

/// Keeps only the entries whose outputs can't be trusted. Frees the log that the handle had before; a load that
/// is refused leaves that log.
#[unsafe(no_mangle)]
pub extern "C" fn nlog_load_distrusted(
    handle: &mut Handle,
    alloc: Global,
    key0: u64,
    key1: u64,
    bytes: &[u8],
) -> u32
    ensures { LoadsInto (IsDistrustedFrom bytes.now) (log_of (as_five bytes.now) ≡ NotALog) (log_of (as_five bytes.now) ≡ OtherVersion) result
        handle.old.kept.log handle.new.kept.log }
{
    let mut log = match LoadedLog::load(alloc, 0, Secret::of(key0, key1), bytes) {
        Ok(log) => log,
        Err(refused) => return status::of_log_fault(refused.into()),
    };
    let Ok(table) = distrusted(alloc, log.loaded.version, bytes, &log.loaded.table) else {
        return status::OUT_OF_MEMORY;
    };
    log.loaded.table = table;
    log.is_all = false;
    handle.put(alloc, Held::Loaded(log))
}

/// A handle without a log stays as it is.
#[unsafe(no_mangle)]
pub extern "C" fn nlog_free(handle: &mut Handle, alloc: Global)
    ensures { handle.new.kept.log ≡ None }
{
    drop(handle.take(alloc));
}

#[unsafe(no_mangle)]
pub extern "C" fn nlog_get_facts(handle: &mut Handle, alloc: Global, facts: &mut Facts) -> u32
    ensures same { handle.new.kept.log ≡ handle.old.kept.log }
    ensures value { (result, facts.new) ≡ answered_facts (loaded_in handle.old.kept.log) facts.old }
{
    lent!(handle, alloc, as_mut, Held::Loaded(log) => {
        let unique = log.loaded.table.len() as u64;
        *facts = Facts {
            version: log.version.number(log.loaded.version) as u32,
            is_due: is_due(log.loaded.version, log.loaded.total, unique),
            total: log.loaded.total,
            unique,
            skipped: log.loaded.skipped,
            whole: log.loaded.whole,
            torn: log.loaded.torn,
        };
        status::OK
    })
}

#[unsafe(no_mangle)]
pub extern "C" fn nlog_count(handle: &mut Handle, alloc: Global, count: &mut usize) -> u32
    ensures same { handle.new.kept.log ≡ handle.old.kept.log }
    ensures value { (result, count.new) ≡ answered_count (table_in handle.old.kept.log) count.old }
{
    lent!(handle, alloc, table, Some(table) => {
        *count = table.len();
        status::OK
    })
}

/// A buffer that is too short for the name is left alone.
#[unsafe(no_mangle)]
pub extern "C" fn nlog_at(
    handle: &mut Handle,
    alloc: Global,
    place: usize,
    stamp: &mut Stamp,
    name: &mut [u8],
    name_len: &mut usize,
) -> u32
    ensures same { handle.new.kept.log ≡ handle.old.kept.log }
    ensures value { (result, record { stamp = stamp.new; name = name.new; len = name_len.new })
        ≡ answered_at (table_in handle.old.kept.log) place (record { stamp = stamp.old; name = name.old; len = name_len.old }) }
{
    lent!(handle, alloc, table, Some(table) => {
        look_up::fill(table.at(place), stamp, name, name_len)
    })
}

#[unsafe(no_mangle)]
pub extern "C" fn nlog_find(
    handle: &mut Handle,
    alloc: Global,
    name: &[u8],
    stamp: &mut Stamp,
) -> u32
    ensures same { handle.new.kept.log ≡ handle.old.kept.log }
    ensures value { (result, stamp.new) ≡ answered_find (table_in handle.old.kept.log) name.now stamp.old }
{
    lent!(handle, alloc, table, Some(table) => look_up::find(table, name, stamp))
}

/// The line is passed without its newline. A buffer that is too short for the name is left alone.
#[unsafe(no_mangle)]
pub extern "C" fn nlog_read_line(
    version: u32,
    line: &[u8],
    stamp: &mut Stamp,
    name: &mut [u8],
    name_len: &mut usize,
) -> u32
    ensures { (result, record { stamp = stamp.new; name = name.new; len = name_len.new }) ≡ answer_line version line.now
        (record { stamp = stamp.old; name = name.old; len = name_len.old }) }
{
    if line.len() > MAX_LINE {
        return status::NOT_FOUND;
    }
    let entry = if version == OLDEST_VERSION as u32 {
        read_entry_v4(line)
    } else {
        read_entry(line)
    };
    look_up::fill(entry, stamp, name, name_len)
}

#[unsafe(no_mangle)]
pub extern "C" fn nlog_check_name(name: &[u8]) -> u32
    ensures ok { result ≡ ok ↔ IsName name.now }
    ensures refusals { (result ≡ ok) ⊎ (result ≡ bad_name) }
{
    match name_fault(name) {
        None => status::OK,
        Some(_) => status::BAD_NAME,
    }
}

/// For logs of version 5 and 6.
#[unsafe(no_mangle)]
pub extern "C" fn nlog_command_hash(command: &[u8]) -> u64
    ensures value { result ≡ hash_of command.now }
    ensures hash { IsHash command.now result }
{
    command_hash(command)
}

/// For logs of version 7.
#[unsafe(no_mangle)]
pub extern "C" fn nlog_command_hash_v7(command: &[u8]) -> u64
    ensures value { result ≡ rapid_hash_of command.now }
{
    command_hash_v7(command)
}
