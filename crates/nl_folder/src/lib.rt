//! A folder with a log and a scratch, what a crash may leave of it, and one in memory that crashes as it is told.
#![tactic(auto)]

mod choices;
mod folder;
pub mod laws;
mod log_reader;
mod mem_file;
mod mem_folder;

pub use choices::{Call, Fuse};
pub use folder::{Crashable, Fault, Folder, count_fault};
pub use log_reader::LogReader;
pub use mem_folder::MemFolder;
