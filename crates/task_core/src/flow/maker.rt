//! What makes tasks.
ghost use Rattle.std.specs.Prelude.{◌≡◌};

use crate::code::{Callable, Code};
use crate::flow::CodeFlow;
use crate::open_call::OpenCall;
use port_io::{NoMemory, Sequence};
use py_value::{TaskNo, Value};
use rig_model::task::FlowMaker;
use std::alloc::Global;

/// Makes the tasks of these functions, which it borrows.
#[derive(Drop)]
pub struct CodeMaker<'a, C> {
    functions: &'a [Callable<'a, C>],
}

impl<'a, C: Code<'a>> CodeMaker<'a, C> {
    /// The maker of tasks of these functions, by number. It takes no memory.
    pub fn new(functions: &'a [Callable<'a, C>]) -> CodeMaker<'a, C>
        ensures { result.functions.now ≡ functions.now }
    {
        CodeMaker { functions }
    }
}

impl<'a, C: Code<'a>> FlowMaker for CodeMaker<'a, C> {
    type Flow = CodeFlow<'a, C>;

    ghost use Rattle.std.specs.Prelude.{map};
    ghost use Rattle.task_core.specs.Code.Functions.{function_of};

    ghost functions = { λ maker. map (function_of C.reads) maker.functions.now };

    fn make(
        &self,
        alloc: Global,
        task: TaskNo,
        func: u32,
        args: Sequence<Value>,
    ) -> Result<CodeFlow<'a, C>, NoMemory> {
        let call = OpenCall::numbered(alloc, self.functions, func, &args)?;
        Ok(CodeFlow {
            functions: self.functions,
            number: task,
            triggers: 0,
            call,
            around: Vec::new(alloc),
            ended: false,
        })
    }
}
