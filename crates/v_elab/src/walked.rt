//! An instance between two of its items, whatever these are.

ghost use Rattle.std.specs.Prelude.{◌≡◌, ◌&&◌, is_none};
ghost use Rattle.name_table.specs.Places.{first_place, nowhere};
ghost use Rattle.v_flat.specs.Scope.Scope.{means};

use crate::state::State;
use name_table::Names;
use std::alloc::Global;

/// An instance between two of its items.
#[derive(Drop)]
pub struct Walked {
    /// What items that are no instances go by.
    pub state: State,
    /// The names of the instances in it so far.
    pub instances: Names,
}

impl Walked {
    /// An instance before its first item.
    pub fn of(alloc: Global, state: State) -> Walked
        ensures is { result.state ≡ state }
        ensures none { first_place result.instances ≡ nowhere }
    {
        Walked {
            state,
            instances: Names::new(alloc),
        }
    }

    /// Whether nothing in the instance has this name (IEEE 1364-2005, clause 4.11).
    pub(crate) fn is_fresh(&self, name: &[u8]) -> bool
        ensures { result ≡ (is_none (means self.now.state.scope name.now) && is_none (first_place self.now.instances name.now)) }
    {
        self.state.scope.find(name).is_none() && self.instances.find(name).is_none()
    }
}
