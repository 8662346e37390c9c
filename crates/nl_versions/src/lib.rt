//! Which version a log is of, and logs of each version seen as logs of version 5, from which they differ in one byte.
#![tactic(auto)]

mod entries;
pub mod laws;
mod sources;
mod version;
mod version_folder;

pub use entries::{LogEntries, Stamps, may_be_log, read_entries};
pub use sources::{BegunSource, VersionSource, load_seen, read_beginning, see_named};
pub use version::{
    FirstLine, LogVersion, command_hash_in, first_line_in, is_version_read, lines_version,
    names_four, taken_version, version_of,
};
pub use version_folder::{Version, VersionFolder, VersionSeven, VersionSix};
