//! The functions of a program.
ghost use Rattle.std.specs.Prelude.{◌≡◌, map, IfOk};
ghost use Rattle.task_compile.specs.Reading.{functions_in};
ghost use Rattle.task_core.specs.Code.Functions.{function_of};
ghost use Rattle.task_core.specs.States.{read_at};

use port_io::NoMemory;
use std::alloc::Global;
use task_compile::Program;
use task_core::code::Callable;
use task_core::{Numbered, numbered_functions};

/// The functions of a program, by number, each with the place of its first state.
#[derive(Drop)]
pub struct StateFunctions<'a> {
    pub(crate) functions: Vec<Callable<'a, Numbered<'a>>>,
}

impl<'a> StateFunctions<'a> {
    /// Those of this program. Only want of memory is an error.
    pub fn of(alloc: Global, program: &'a Program<'a>) -> Result<StateFunctions<'a>, NoMemory>
        ensures { IfOk result (λ all. map (function_of read_at) all.functions.items ≡ functions_in program.now) }
    {
        Ok(StateFunctions {
            functions: numbered_functions(alloc, program)?,
        })
    }
}
