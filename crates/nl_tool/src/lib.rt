//! The program `nlog`: what it does for the words that it was given, over real files, and the status with which it ends.
#![tactic(auto)]

mod changing;
mod desk;
mod doubting;
mod host;
pub mod laws;
mod notes;
mod numbers;
mod printing;
mod program;
mod reason;
mod reporting;

pub use desk::{Desk, Means, Screen, number_of};
pub use host::{BuildFiles, Disk, Errors, Host, Logs, OsErrors, OsHost, SystemRuntime};
pub use nl_os::{DiskFolder, LogFolder, Look, Telling, look_of};
pub use nl_tool_change::{
    AskedFolder, LineFault, LogPlace, Nobody, NumberFault, NumberOf, Told, UNTOLD, WrongNumber,
    apply_on, entry_of, recompact_on, record_command, record_on, repair_on, replay_to, restat_on,
};
pub use nl_tool_doubt::{doubts_of, write_doubts};
pub use nl_tool_print::{
    check_log, check_to, damage_to, entries_to, hash_for, hash_read, hash_to, load_read, show_log,
    show_to,
};
pub use nl_tool_texts::{ToolFault, status_of};
pub use nl_tool_words::{
    AskedVersion, Changing, Choices, CommandLine, NewEntry, Reading, Words, read_words,
};
pub use nl_versions::{FirstLine, LogVersion, command_hash_in, first_line_in, version_of};
pub use notes::{Heard, NotedReader, NotedWriter, Notes};
pub use program::{Verdict, run, run_at, run_line, run_on, run_program};
pub use reason::{Place, Reason, Refusal, Why, notes_of, refusal_of};
