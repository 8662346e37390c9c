//! The files of a build's outputs beside its log: what a crash may leave of both, and when an entry vouches for a file.
#![tactic(auto)]

pub mod laws;
