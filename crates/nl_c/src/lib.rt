//! The library for callers in C. `include/nlog.h` declares what is exported here.
#![tactic(auto)]

mod carried_exports;
mod carried_folder;
mod carried_log;
mod exports;
mod handle;
mod laws;
mod loaded_log;
mod look_up;
mod marks;
mod status;
