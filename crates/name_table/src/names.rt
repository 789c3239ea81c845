//! The first place of each name.

ghost use Rattle.std.specs.Prelude.{◌≡◌, ℕ, List, None, OnOk, OnErr};
ghost use Rattle.name_table.specs.Places.{first_place, noted, nowhere};

use indexmap::IndexMap;
use port_io::NoMemory;
use std::alloc::Global;
use std::marker::Model;

/// Names with a place for each of them, seen as a list of names with their places, the first of which counts.
#[derive(Drop)]
pub struct Names {
    places: IndexMap<Vec<u8>, usize>,
}

impl Model for Names {
    ghost use Rattle.std.specs.Prelude.{List, ℕ};
    ghost use Rattle.name_table.specs.Entries.{entries_of};

    ghost Value = { List (List ℕ × ℕ) };

    ghost view = { λ names. entries_of (λ k. k.items) names.places.entries };
}

impl Names {
    /// No name has a place.
    pub fn new(alloc: Global) -> Names
        ensures { first_place result ≡ nowhere }
    {
        Names {
            places: IndexMap::new(alloc),
        }
    }

    /// The place of a name; none where none was noted.
    pub fn find(&self, name: &[u8]) -> Option<usize>
        ensures { result ≡ first_place self.now name.now }
    {
        self.places.get(name).copied()
    }

    /// Gives a name a place.
    fn add(&mut self, alloc: Global, name: &[u8], place: usize) -> Result<(), NoMemory>
        requires { first_place self.old name.now ≡ None }
        ensures ok { OnOk result ((n : List ℕ) → first_place self.new n ≡ noted name.now place (first_place self.old) n) }
        ensures err { OnErr result (self.new ≡ self.old) }
    {
        let key = name.to_vec(alloc)?;
        self.places.insert(key, place)?;
        Ok(())
    }

    /// Gives a name this place, unless it has one. After `NoMemory` all names have the places that they had.
    #[tactic(auto, using(crate::proofs::Stored::note_known))]
    pub fn note(&mut self, alloc: Global, name: &[u8], place: usize) -> Result<(), NoMemory>
        ensures ok { OnOk result ((n : List ℕ) → first_place self.new n ≡ noted name.now place (first_place self.old) n) }
        ensures err { OnErr result (self.new ≡ self.old) }
    {
        match self.find(name) {
            Some(_) => Ok(()),
            None => self.add(alloc, name, place),
        }
    }
}
