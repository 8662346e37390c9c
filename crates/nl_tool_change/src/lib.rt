//! What the commands of `nlog` change, over any folder, and the scripts of `replay`.
#![tactic(auto)]

mod answers;
mod apply;
mod asked;
mod files;
pub mod laws;
mod line_fault;
mod place;
mod reading;
mod script;
mod seen;
mod update;

pub use apply::{Hears, Nobody, apply_on};
pub use files::read_manifest;
pub use line_fault::{
    LineFault, NumberFault, NumberOf, Told, UNTOLD, WrongNumber, build_fault, entry_of,
    number_fault,
};
pub use place::{AskedFolder, LogPlace, mend_on};
pub use reading::read_log;
pub use script::{replay_telling, replay_to};
pub use update::{
    recompact_on, recompact_telling, record_command, record_on, repair_on, restat_on,
    restat_telling, retime_on,
};
