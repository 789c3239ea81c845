//! What each element of a list of an item does with an instance.

ghost use Rattle.std.specs.Prelude.{◌≡◌, Bool, IfOk, is_some, true};
ghost use Rattle.v_flat.specs.declared.scope.found.Found.{Found};
ghost use Rattle.v_flat.specs.Design.{State as InstanceState, driver, net, register};
ghost use Rattle.v_syntax.specs.SourceTrees.{view_driver, view_net, view_register};
ghost use Rattle.v_elab.specs.States.{IsReady};
ghost use Rattle.v_elab.specs.ItemsSteps.{IsStep, is_opening};

use crate::processes::{driver, net, register};
use crate::state::State;
use port_io::NoMemory;
use std::alloc::Global;
use v_flat::scope::Found;
use v_syntax::{ContinuousAssignment, NetDeclarator, RegisterDeclarator, RegisterTail};

/// An element of a list of an item.
pub(crate) trait Step {
    /// What the definition finds in it, in any state.
    ghost step: { Self → InstanceState → Found InstanceState };

    /// Whether the definition has a process of it.
    ghost gives: { Self → Bool };

    /// Whether it gives a process.
    fn gives_process(&self) -> bool
        ensures { result ≡ gives self.now };

    /// The instance behind it, or what is broken first in it. Only want of memory is an error.
    fn found(&self, alloc: Global, state: State) -> Result<Found<State>, NoMemory>
        requires { IsReady state }
        ensures { IfOk result (IsStep (step self.now) state) };
}

impl Step for ContinuousAssignment {
    ghost step = { λ a. driver (view_driver a) };

    ghost gives = { λ a. true };

    fn gives_process(&self) -> bool {
        true
    }

    fn found(&self, alloc: Global, state: State) -> Result<Found<State>, NoMemory> {
        driver(alloc, &self.target, &self.value, state)
    }
}

impl Step for NetDeclarator {
    ghost step = { λ n. net (view_net n) };

    ghost gives = { λ n. is_some n.value };

    fn gives_process(&self) -> bool {
        self.value.is_some()
    }

    #[tactic(auto, using(crate::proofs::Turns::no_step))]
    fn found(&self, alloc: Global, state: State) -> Result<Found<State>, NoMemory> {
        match &self.value {
            None => Ok(Found::Sound(state)),
            Some(value) => net(alloc, &self.name, value, state),
        }
    }
}

impl Step for RegisterDeclarator {
    ghost step = { λ r. register (view_register r) };

    ghost gives = { λ r. is_opening r.tail };

    fn gives_process(&self) -> bool {
        matches!(self.tail, Some(RegisterTail::Value(_)))
    }

    #[tactic(auto, using(crate::proofs::Turns::no_step))]
    fn found(&self, alloc: Global, state: State) -> Result<Found<State>, NoMemory> {
        match &self.tail {
            Some(RegisterTail::Value(value)) => register(alloc, &self.name, value, state),
            Some(RegisterTail::Words(_)) => Ok(Found::Sound(state)),
            None => Ok(Found::Sound(state)),
        }
    }
}
