//! Names, numbers, entry lines, first lines and command hashes of Ninja's build log.
#![tactic(auto)]

mod entry;
mod entry_line;
mod hash;
mod header;
pub mod laws;
mod name;
mod numbers;
mod rapid_hash;

pub use entry::{Entry, EntryRef, Stamp, is_intent};
pub use entry_line::{append_entry, read_entry, read_entry_v4};
pub use hash::command_hash;
pub use header::{HEADER, Header, MAX_ENTRY_LINE, MAX_LINE, MAX_LOG, MAX_NAME, read_header};
pub use name::{Name, NameFault, name_fault};
pub use numbers::{append_hex64, hex_digit, read_hex64, read_i32, read_i64};
pub use rapid_hash::command_hash_v7;
