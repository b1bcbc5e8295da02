//! `b3sum`: BLAKE3 checksums of files, written and checked.
//!
//! `main` opens the streams and hands the arguments to [`call_with`], which has `clap` read the words, and `b3_program`
//! do what they ask for.
#![tactic(auto)]

use b3_arguments::arguments;
use b3_board::OpenGate;
use b3_call::call_with;
use b3_files::{INPUT_PATHS, RealDisk, RealInput};
use std::process::ExitCode;

fn main(rt: HostRuntime) -> ExitCode {
    call_with(
        &rt,
        rt.alloc(),
        arguments(&rt, rt.alloc()),
        RealDisk::new(&rt),
        RealInput::new(&rt, rt.stdin(), INPUT_PATHS),
        rt.stdout(),
        rt.stderr(),
        &OpenGate,
    )
    .exit_code()
}
