//! What a caller asks of a table, and the line of an entry.
ghost use Rattle.std.specs.Prelude.{◌≡◌, ◌≢◌, ◌<◌, ◌≤◌, ◌⊎◌, length, vec_capacity};
ghost use Rattle.nl_fields.specs.{EntryLine.{line_of}, Limits.{max_entry_line}};
ghost use Rattle.nl_lines.specs.Split.{with_newline};
ghost use Rattle.nl_c.specs.{CarriedLogs.{holds_line}, Statuses.{ok, no_room, out_of_memory}, Answers.{answer_find, entry_in}};

use crate::status;
use nl_fields::{EntryRef, Stamp, append_entry};
use nl_table::Table;

pub(crate) fn find(table: &Table, name: &[u8], stamp: &mut Stamp) -> u32
    ensures { (result, stamp.new) ≡ answer_find table.now name.now stamp.old }
{
    let Some(entry) = table.get(name) else {
        return status::NOT_FOUND;
    };
    *stamp = entry.stamp();
    status::OK
}

pub(crate) fn fill(
    found: Option<EntryRef>,
    stamp: &mut Stamp,
    name: &mut [u8],
    name_len: &mut usize,
) -> u32
    ensures { (result, record { stamp = stamp.new; name = name.new; len = name_len.new })
        ≡ entry_in found.entry (record { stamp = stamp.old; name = name.old; len = name_len.old }) }
{
    let Some(entry) = found else {
        return status::NOT_FOUND;
    };
    *stamp = entry.stamp();
    let bytes = entry.name();
    *name_len = bytes.len();
    if bytes.len() > name.len() {
        return status::NO_ROOM;
    }
    name[..bytes.len()].copy_from_slice(bytes);
    status::OK
}

/// `line` is memory that this overwrites.
pub(crate) fn spell(entry: &EntryRef, line: &mut Vec<u8>, buf: &mut [u8], len: &mut usize) -> u32
    ensures done { result ≡ ok → (buf.new, len.new) ≡ holds_line entry.now buf.old }
    ensures short { result ≡ no_room → length buf.old < length (with_newline (line_of entry.now)) }
    ensures unchanged { result ≢ ok → (buf.new ≡ buf.old) × (len.new ≡ len.old) }
    ensures statuses { (result ≡ ok) ⊎ (result ≡ no_room) ⊎ (result ≡ out_of_memory) }
    ensures room { max_entry_line ≤ vec_capacity line.old → result ≢ out_of_memory }
    ensures capacity { vec_capacity line.old ≤ vec_capacity line.new }
{
    line.clear();
    if append_entry(entry, line).is_err() {
        return status::OUT_OF_MEMORY;
    }
    let count = line.len();
    if count > buf.len() {
        return status::NO_ROOM;
    }
    buf[..count].copy_from_slice(line.as_slice());
    *len = count;
    status::OK
}
