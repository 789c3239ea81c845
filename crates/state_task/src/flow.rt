//! Tasks.
use await_tree::Given;
use port_io::NoMemory;
use py_evaluate::attribute::Look;
use rig_model::task::{Flow, Turned};
use std::alloc::Global;
use task_core::Numbered;
use task_core::flow::CodeFlow;

/// A task that keeps the numbers of states.
#[derive(Drop)]
pub struct StateFlow<'a> {
    pub(crate) flow: CodeFlow<'a, Numbered<'a>>,
}

impl<'a> Flow for StateFlow<'a> {
    ghost use Rattle.task_core.specs.Flow.Flow.{functions_in, task_in};
    ghost use Rattle.task_core.specs.States.{read_at};

    ghost functions = { λ task. functions_in read_at task.flow };

    ghost meaning = { λ task. task_in read_at task.flow };

    fn poll<V: Look>(
        &mut self,
        alloc: Global,
        given: Given,
        view: &V,
        fuel: &mut u64,
    ) -> Result<Turned, NoMemory> {
        self.flow.poll(alloc, given, view, fuel)
    }
}
