//! The functions of a program.
ghost use Rattle.std.specs.Prelude.{◌≡◌, map, IfOk};
ghost use Rattle.task_compile.specs.Reading.{functions_in};
ghost use Rattle.task_core.specs.Code.Functions.{function_of};
ghost use Rattle.task_core.specs.States.{read_at};

use crate::code::Callable;
use crate::states::Numbered;
use port_io::NoMemory;
use std::alloc::Global;
use task_compile::Program;

/// The functions of a program, by number, each with the place of its first state. Only want of memory is an error.
pub fn numbered_functions<'a>(
    alloc: Global,
    program: &'a Program<'a>,
) -> Result<Vec<Callable<'a, Numbered<'a>>>, NoMemory>
    ensures { IfOk result (λ functions. map (function_of read_at) functions.items ≡ functions_in program.now) }
{
    let mut functions = Vec::new(alloc);
    for function in &program.functions {
        functions.push(Callable {
            parameters: function.parameters,
            others: function.others,
            body: Numbered {
                program,
                number: function.first,
            },
        })?;
    }
    Ok(functions)
}
