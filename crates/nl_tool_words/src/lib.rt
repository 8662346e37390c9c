//! The command line of `nlog`: its words and their values, read by `clap`.
#![tactic(auto)]

mod command_line;
mod rows;
mod shape;
mod values;
mod words;

pub use command_line::{AskedVersion, CommandLine, path_in_place, read_words};
pub use words::{Changing, Choices, NewEntry, Reading, Words};
