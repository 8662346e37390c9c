//! From the bytes of a log to its builds.
#![tactic(auto)]

mod build;
mod command;
pub mod laws;
mod reading;
mod seen;

pub use build::{Build, Builds, How, builds_of};
pub use command::{Command, commands_of, moment};
pub use reading::{LogBuilds, Recorded, keep_recorded, read_builds};
