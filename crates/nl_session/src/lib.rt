//! A build log that is kept open over a folder.
#![tactic(auto)]

mod append;
mod events;
mod fault;
mod intent;
pub mod laws;
mod log;
mod rewrite;

pub use events::{Event, Outcome, Reply, reply_to_event, run_events};
pub use fault::{LogFault, LogState};
pub use intent::{intent_hash, lacks_intent};
pub use log::{Log, first_negative};
