//! Which outputs of a log can't be trusted, because a line that is no entry may be about them.
#![tactic(auto)]

pub mod laws;
mod walk;

pub use walk::{distrusted, is_whole, plain_name};
