//! What makes tasks.
ghost use Rattle.std.specs.Prelude.{◌≡◌};

use crate::flow::TreeFlow;
use crate::functions::TreeFunctions;
use port_io::{NoMemory, Sequence};
use py_value::{TaskNo, Value};
use rig_model::task::FlowMaker;
use std::alloc::Global;
use task_core::flow::CodeMaker;

/// Makes the tasks of these functions, which it borrows.
#[derive(Drop)]
pub struct TreeMaker<'a> {
    functions: &'a TreeFunctions<'a>,
}

impl<'a> TreeMaker<'a> {
    /// The maker of tasks of these functions, by number. It takes no memory.
    pub fn new(functions: &'a TreeFunctions<'a>) -> TreeMaker<'a>
        ensures { result.functions.now ≡ functions.now }
    {
        TreeMaker { functions }
    }
}

impl<'a> FlowMaker for TreeMaker<'a> {
    type Flow = TreeFlow<'a>;

    ghost use Rattle.std.specs.Prelude.{map};
    ghost use Rattle.task_core.specs.Code.Functions.{function_of};
    ghost use Rattle.plain_task.specs.Tree.{read_tree};

    ghost functions = { λ maker. map (function_of read_tree) maker.functions.now.functions.items };

    fn make(
        &self,
        alloc: Global,
        task: TaskNo,
        func: u32,
        args: Sequence<Value>,
    ) -> Result<TreeFlow<'a>, NoMemory> {
        let maker = CodeMaker::new(self.functions.functions.as_slice());
        Ok(TreeFlow {
            flow: maker.make(alloc, task, func, args)?,
        })
    }
}
