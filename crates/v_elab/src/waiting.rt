//! An instance while one inside it is walked.

ghost use Rattle.std.specs.Prelude.{◌≡◌, IfOk, OnOk};
ghost use Rattle.v_elab.specs.Enters.{Leaves};
ghost use Rattle.v_elab.specs.InnerSteps.{Notes, walked_with};

use crate::outside::Outside;
use crate::state::State;
use crate::walked::Walked;
use gpi::Spot;
use name_table::Names;
use port_io::{Name, NoMemory, Sequence};
use std::alloc::Global;
use v_flat::scope::Scope;
use v_layout::build::Parts;
use v_process::drive::DrivenDigits;
use v_syntax::Module;

/// An instance while one inside it is walked.
#[derive(Drop)]
pub struct Waiting {
    /// What its names mean.
    pub scope: Scope,
    /// Which digits of its nets are driven, those by the instance inside it among them.
    pub driven: DrivenDigits,
    /// The names that are known in it, but for that of the instance inside it.
    pub children: Sequence<(Name, Spot)>,
    /// The names of the instances in it before that one.
    pub instances: Names,
    /// The number of the instance inside it.
    pub node: u32,
}

/// An instance that is to be walked.
#[derive(Drop)]
pub struct Entered<'a> {
    /// Its module.
    pub module: &'a Module,
    /// Its path, with dots.
    pub path: Vec<u8>,
    /// The names of the modules from the top to its own.
    pub above: Vec<&'a [u8]>,
    /// What it is given.
    pub outside: Outside,
    /// What is built of the design so far.
    pub parts: Parts,
    /// The instance around it.
    pub waiting: Waiting,
}

impl Waiting {
    /// From now on the instance inside it is known by this name. Only want of memory is an error.
    fn note(&mut self, alloc: Global, name: &[u8]) -> Result<(), NoMemory>
        ensures { OnOk result (Notes name.now self.old self.new) }
    {
        let known = Name::of(alloc, name)?;
        self.children.push((known, Spot::Inner(self.node)))?;
        self.instances.note(alloc, name, 0)
    }

    /// The same, no more waiting, with what is built of the design so far.
    fn walked(self, parts: Parts) -> Walked
        ensures { result ≡ walked_with self parts }
    {
        let Waiting {
            scope,
            driven,
            children,
            instances,
            node: _,
        } = self;
        let state = State {
            scope,
            parts,
            driven,
            children,
        };
        Walked { state, instances }
    }

    /// The instance behind one of this name inside it, with what is built of the design then. Only want of memory is an error.
    pub fn leave(mut self, alloc: Global, name: &[u8], parts: Parts) -> Result<Walked, NoMemory>
        ensures { IfOk result (Leaves name.now self parts) }
    {
        self.note(alloc, name)?;
        Ok(self.walked(parts))
    }
}
