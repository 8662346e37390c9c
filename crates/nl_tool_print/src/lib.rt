//! What the commands of `nlog` print, over any reader and writer.
#![tactic(auto)]

mod damage;
mod hash;
pub mod laws;
mod show;
mod stream;

pub use damage::{damage_to, entries_to};
pub use hash::{hash_for, hash_read, hash_to, read_all};
pub use show::{PIECE, check_log, check_to, load_read, show_log, show_to, write_lines};
