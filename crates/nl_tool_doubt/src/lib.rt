//! Which outputs of a log their files speak against, and the words that look at a log and change it, over any files, folder and writer.
#![tactic(auto)]

mod doubts;
mod files;
mod judge;
pub mod laws;
mod mending;
mod moments;
mod settling;
mod spans;

pub use doubts::{Doubted, Doubts, doubts_of, write_doubts};
pub use files::{FileState, FileTimes, Looked, OutputFiles};
pub use judge::Doubt;
pub use mending::{How, Mended, mend_to};
pub use settling::{prune_to, repair_to, retime_to};
