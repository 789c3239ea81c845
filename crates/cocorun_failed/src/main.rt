//! The program `cocorun` once more, which is run on a test that fails.
#![tactic(auto)]

use command::run_process;
use fast_kernel::FastKernel;
use std::process::ExitCode;

fn main(rt: HostRuntime) -> ExitCode {
    let mut kernel = FastKernel::new();
    run_process(&rt, &mut kernel)
}
