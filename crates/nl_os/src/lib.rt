//! The files of one log on an operating system, asked for by one call of it at a time, the lock on them, and a folder over them.
#![tactic(auto)]

mod disk_folder;
mod failed_call;
mod log_folder;
mod looks;
mod os_system;
mod paths;
mod renewal;
mod rights;
mod system_file;
mod telling;
mod wait;

pub use disk_folder::DiskFolder;
pub use failed_call::{FailedCall, Failure, FileRole, SystemCall};
pub use log_folder::LogFolder;
pub use looks::{Look, escaped_of, look_of};
pub use os_system::OsSystem;
pub use paths::folder_part;
pub use system_file::SystemFile;
pub use telling::Telling;
