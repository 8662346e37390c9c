//! The last entry of each output, in the order in which each output first appears.
#![tactic(auto)]

pub mod laws;
mod loader;
mod log_user;
mod output_key;
mod secret;
mod table;

pub use loader::{
    CURRENT_VERSION, First, LoadFault, Loaded, OLDEST_VERSION, is_due, load, load_with, read_first,
    read_line,
};
pub use log_user::{KeepAll, KeepList, LogUser, NameSet};
pub use output_key::NameKey;
pub use secret::{NO_SECRET, Secret};
pub use table::Table;
