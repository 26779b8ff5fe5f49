//! The program `hkv`: its words go to the top call, and it ends with the answer's status.
#![tactic(auto)]

use hk_main::run_program;
use std::process::ExitCode;

fn main(rt: HostRuntime) -> ExitCode {
    run_program(rt)
}
