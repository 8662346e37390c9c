//! A folder over the calls of an operating system, and a model of these calls from which the folder's record follows.
#![tactic(auto)]

mod file_folder;
mod held_files;
pub mod laws;
mod log_calls;
mod mem_inode;
mod mem_system;
mod runs;
mod scratch_calls;
mod system;

pub use file_folder::FileFolder;
pub use mem_system::{MemHandle, MemSystem};
pub use runs::{run_in_memory, run_over_system};
pub use system::{CrashableSystem, SyncFault, System};
