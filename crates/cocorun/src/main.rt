//! Runs the tests of a file on a design.
#![tactic(auto)]

use command::run_process;
use fast_kernel::FastKernel;
use std::process::ExitCode;

fn main(rt: HostRuntime) -> ExitCode {
    let mut kernel = FastKernel::new();
    run_process(&rt, &mut kernel)
}
