//! The program `hkv` once more, for a stored run: a kernel text that is refused ends it with status 3.
#![tactic(auto)]

use hk_main::run_program;
use std::process::ExitCode;

fn main(rt: HostRuntime) -> ExitCode {
    run_program(rt)
}
