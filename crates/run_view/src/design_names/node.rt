//! The names of one node.
//!
//! After want of memory a table that was being filled is dropped.

ghost use Rattle.std.specs.Prelude.{◌≡◌, ◌++◌, ◌∷◌, [], List, ℕ, None, IfOk, OnErr, OnOk};
ghost use Rattle.std.specs.Option.{option_or};
ghost use Rattle.py_evaluate.specs.Attribute.Look.{spot_of};
ghost use Rattle.run_view.specs.DesignNames.Tables.{IsTable};

use gpi::Spot;
use indexmap::IndexMap;
use port_io::{Name, NoMemory, Sequence};
use std::alloc::Global;
use std::marker::Model;

/// The names that are declared in a node with what they mean, each name once, seen as the list of both.
#[derive(Drop)]
pub(crate) struct NodeNames<'a> {
    spots: IndexMap<&'a [u8], Spot>,
}

impl<'a> Model for NodeNames<'a> {
    ghost use Rattle.std.specs.Prelude.{List, ℕ};
    ghost use Rattle.gpi.specs.declared.design.Spot.{Spot as declared_spot};
    ghost use Rattle.run_view.specs.DesignNames.Kept.{names_kept};

    ghost Value = { List (List ℕ × declared_spot) };

    ghost view = { λ names. names_kept (λ k. k.now) names.spots.entries };
}

impl<'a> NodeNames<'a> {
    /// No name.
    fn new(alloc: Global) -> NodeNames<'a>
        ensures { result ≡ [] }
    {
        NodeNames {
            spots: IndexMap::new(alloc),
        }
    }

    /// What a name means; none where it isn't declared.
    pub(crate) fn find(&self, name: &[u8]) -> Option<Spot>
        ensures { result ≡ spot_of self.now name.now }
    {
        self.spots.get(name).copied()
    }

    /// Adds a name that isn't declared yet. After `NoMemory` the names are as before.
    fn add(&mut self, name: &'a [u8], spot: Spot) -> Result<(), NoMemory>
        requires { spot_of self.old name.now ≡ None }
        ensures ok { OnOk result (self.new ≡ self.old ++ (name.now, spot) ∷ []) }
        ensures err { OnErr result (self.new ≡ self.old) }
    {
        self.spots.insert(name, spot)?;
        Ok(())
    }

    /// Adds a name, unless it is declared already. After `NoMemory` the names are as before.
    #[tactic(auto, using(crate::proofs::DesignNamesLemmas::First::note_known, crate::proofs::DesignNamesLemmas::First::note_new))]
    fn note(&mut self, name: &'a [u8], spot: Spot) -> Result<(), NoMemory>
        ensures ok { OnOk result ((n : List ℕ) → spot_of self.new n ≡ option_or (spot_of self.old n) (spot_of ((name.now, spot) ∷ []) n)) }
        ensures err { OnErr result (self.new ≡ self.old) }
    {
        match self.find(name) {
            Some(_) => Ok(()),
            None => self.add(name, spot),
        }
    }

    /// The names of a node; of each name the first entry counts. Only want of memory is an error.
    pub(crate) fn of(
        alloc: Global,
        children: &'a Sequence<(Name, Spot)>,
    ) -> Result<NodeNames<'a>, NoMemory>
        ensures { IfOk result (λ names. IsTable names children.now) }
    {
        let mut names = NodeNames::new(alloc);
        for at in 0..children.len() {
            let child = children.get(at);
            names.note(child.0.bytes(), child.1)?;
        }
        Ok(names)
    }
}
