//! Tasks.
use crate::tree::Tree;
use await_tree::Given;
use port_io::NoMemory;
use py_evaluate::attribute::Look;
use rig_model::task::{Flow, Turned};
use std::alloc::Global;
use task_core::flow::CodeFlow;

/// A task that keeps places in the trees of a file.
#[derive(Drop)]
pub struct TreeFlow<'a> {
    pub(crate) flow: CodeFlow<'a, Tree<'a>>,
}

impl<'a> Flow for TreeFlow<'a> {
    ghost use Rattle.task_core.specs.Flow.Flow.{functions_in, task_in};
    ghost use Rattle.plain_task.specs.Tree.{read_tree};

    ghost functions = { λ task. functions_in read_tree task.flow };

    ghost meaning = { λ task. task_in read_tree task.flow };

    fn poll<V: Look>(
        &mut self,
        alloc: Global,
        given: Given,
        view: &V,
        fuel: &mut u64,
    ) -> Result<Turned, NoMemory> {
        self.flow.poll(alloc, given, view, fuel)
    }
}
