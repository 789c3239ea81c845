//! What is kept of a task that was started.
ghost use Rattle.std.specs.Prelude.{◌≡◌, ◌≤◌, None, Some, is_some, IfOk, IfSome, IsSome};
ghost use Rattle.rig_model.specs.Task.Known.{KnowsGiven};
ghost use Rattle.run_state.specs.LiveTasks.Flows.{meanings, IsKnown};
ghost use Rattle.run_state.specs.LiveTasks.Placed.{IsLeft, Polls};

use await_tree::Given;
use port_io::{NoMemory, boxed};
use py_evaluate::attribute::Look;
use rig_model::task::{Flow, Turned};
use std::alloc::Global;
use std::marker::Model;

/// The place of a task that was started: its flow while it lives, and nothing after.
#[derive(Drop)]
pub(crate) struct Place<F: Flow> {
    flow: Option<Box<F>>,
}

impl<F: Flow> Model for Place<F> {
    ghost use Rattle.std.specs.Prelude.{Option};
    ghost use Rattle.std.specs.Option.{option_map};

    ghost Value = { Option F };

    ghost view = { λ p. option_map (λ b. b.value) p.flow };
}

impl<F: Flow> Place<F> {
    /// The place of a live task. Only want of memory is an error.
    pub(crate) fn new(alloc: Global, flow: F) -> Result<Place<F>, NoMemory>
        ensures { IfOk result (λ place. place ≡ Some flow) }
    {
        let flow = boxed(alloc, flow)?;
        Ok(Place { flow: Some(flow) })
    }

    /// The place of a task that lives no more. It takes no memory.
    pub(crate) fn empty() -> Place<F>
        ensures { result ≡ None }
    {
        Place { flow: None }
    }

    /// Whether the task lives. It takes no memory.
    pub(crate) fn is_live(&self) -> bool
        ensures { result ≡ is_some self.now }
    {
        self.flow.is_some()
    }

    /// Polls the task, which lives. Only want of memory is an error.
    pub(crate) fn poll<V: Look>(
        &mut self,
        alloc: Global,
        given: Given,
        view: &V,
        fuel: &mut u64,
    ) -> Result<Turned, NoMemory>
        requires live { IsSome self.old }
        requires known { IfSome self.old (IsKnown (meanings F.functions F.meaning) (V.view view.now)) }
        requires answer { KnowsGiven (V.view view.now) given }
        ensures falls { fuel.new ≤ fuel.old }
        ensures left { IsLeft (meanings F.functions F.meaning) self.old self.new }
        ensures polls { IfOk result (λ turned.
            Polls (meanings F.functions F.meaning) (V.view view.now) fuel.old self.old given turned fuel.new self.new) }
    {
        match &mut self.flow {
            Some(flow) => flow.poll(alloc, given, view, fuel),
            None => unreachable!(),
        }
    }
}
