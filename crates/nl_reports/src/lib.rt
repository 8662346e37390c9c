//! What the builds of a log did: texts, JSON and SVG over any writer, each a function of the builds.
#![tactic(auto)]

mod builds_table;
mod choice;
mod critical;
mod frame;
mod job;
mod jobs;
mod kinds;
mod lanes;
mod last_entries;
pub mod laws;
mod moments;
mod picture;
mod rows;
mod sides;
mod simulation;
mod summary;
mod trace;

pub use builds_table::{builds_lines, builds_screen};
pub use choice::{Choice, Scope, chosen_jobs, last_number};
pub use job::{Job, Numbers, jobs_by_start, numbers_of};
pub use jobs::{ByGraph, graph_lines};
pub use kinds::Times;
pub use lanes::lanes_of;
pub use last_entries::lasting;
pub use moments::{Moments, Near, Shares, Span};
pub use picture::draw_builds;
pub use rows::{Lists, Rank, Row};
pub use sides::{Class, ComparedRow, Rules, Side, compare_lines, compared};
pub use summary::{Totals, summary_lines, taken_in};
pub use trace::trace_builds;
