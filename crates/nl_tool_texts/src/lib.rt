//! The texts that the tool reads and writes: why a command is refused, the lines of a file, the parts of a text, names, columns, and what a
//! writer holds.
#![tactic(auto)]

mod columns;
mod escape;
mod fault;
mod graph;
mod graph_line;
mod kind;
pub mod laws;
mod ranking;
mod slices;
mod terminal;
mod terminal_writer;
mod text;

pub use columns::{in_columns, lines_of};
pub use escape::{append_cut_name, append_label};
pub use fault::{ToolFault, ToolResult, status_of};
pub use graph::{Edge, NONE, NinjaGraph, read_graph};
pub use kind::{KindRule, Work, base_of, kind_of, place, word, work_of};
pub use ranking::{Ranking, highest};
pub use slices::{between, item_at, set_at};
pub use terminal::append_number;
pub use terminal_writer::TerminalWriter;
pub use text::{
    AllocResult, BEGINNING, Part, append, append_line, append_parts, append_with, is_bare, percent,
    ratio, step_of, write_full, write_out,
};
