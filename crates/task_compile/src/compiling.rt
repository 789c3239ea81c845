//! Functions, one after the other.
ghost use Rattle.std.specs.Prelude.{◌≡◌, IfOk, map};
ghost use Rattle.test_meaning.specs.Body.Views.{view_function};
ghost use Rattle.task_compile.specs.Reading.{functions_in};

use crate::blocks::add_block;
use crate::program::{CompiledFunction, Program};
use port_io::NoMemory;
use std::alloc::Global;
use test_meaning::body::TestFile;

/// The functions of a tests file as numbered states. It takes time and memory in proportion to the statements, and as much stack as blocks stand
/// inside one another. Only want of memory is an error.
pub fn compile<'a>(alloc: Global, file: &'a TestFile) -> Result<Program<'a>, NoMemory>
    ensures { IfOk result (λ program. functions_in program ≡ map view_function file.now.functions) }
{
    let mut states = Vec::new(alloc);
    let mut functions = Vec::new(alloc);
    for at in 0..file.functions.len() {
        let function = file.functions.get(at);
        let first = add_block(&mut states, &function.body)?;
        functions.push(CompiledFunction {
            parameters: &function.parameters,
            others: &function.others,
            first,
        })?;
    }
    Ok(Program { states, functions })
}
