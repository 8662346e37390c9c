//! The lines of any source of bytes, through one window.
#![tactic(auto)]

pub mod laws;
mod lines;
mod source;
mod window;

pub use lines::{Line, LineFault, Lines};
pub use source::{ReadSource, SliceSource, Source, SourceFault};
pub use window::{MAX_LINE, MAX_LOG};
