//! What makes tasks.
ghost use Rattle.std.specs.Prelude.{◌≡◌};

use crate::flow::StateFlow;
use crate::functions::StateFunctions;
use port_io::{NoMemory, Sequence};
use py_value::{TaskNo, Value};
use rig_model::task::FlowMaker;
use std::alloc::Global;
use task_core::flow::CodeMaker;

/// Makes the tasks of these functions, which it borrows.
#[derive(Drop)]
pub struct StateMaker<'a> {
    functions: &'a StateFunctions<'a>,
}

impl<'a> StateMaker<'a> {
    /// The maker of tasks of these functions, by number. It takes no memory.
    pub fn new(functions: &'a StateFunctions<'a>) -> StateMaker<'a>
        ensures { result.functions.now ≡ functions.now }
    {
        StateMaker { functions }
    }
}

impl<'a> FlowMaker for StateMaker<'a> {
    type Flow = StateFlow<'a>;

    ghost use Rattle.std.specs.Prelude.{map};
    ghost use Rattle.task_core.specs.Code.Functions.{function_of};
    ghost use Rattle.task_core.specs.States.{read_at};

    ghost functions = { λ maker. map (function_of read_at) maker.functions.now.functions.items };

    fn make(
        &self,
        alloc: Global,
        task: TaskNo,
        func: u32,
        args: Sequence<Value>,
    ) -> Result<StateFlow<'a>, NoMemory> {
        let maker = CodeMaker::new(self.functions.functions.as_slice());
        Ok(StateFlow {
            flow: maker.make(alloc, task, func, args)?,
        })
    }
}
