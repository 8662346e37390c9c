//! `nlog`, a reader and keeper of build logs.
#![tactic(auto)]

use nl_tool::{Screen, run_program};
use std::io::IsTerminal;
use std::process::ExitCode;

fn main(rt: HostRuntime) -> ExitCode {
    let screen = Screen {
        input: rt.stdin().is_terminal(),
        output: rt.stdout().is_terminal(),
        errors: rt.stderr().is_terminal(),
    };
    ExitCode::from(run_program(&rt, screen))
}
