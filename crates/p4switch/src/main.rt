//! The program p4switch.
#![tactic(auto)]

use std::process::ExitCode;

fn main(rt: HostRuntime) -> ExitCode {
    p4switch_run::exit_of(&rt, rt)
}
