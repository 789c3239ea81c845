//! Values that an instance gives.

ghost use Rattle.std.specs.Prelude.{◌≡◌, ◌∷◌, [], OnErr, OnOk};
ghost use Rattle.v_header.specs.Parameter.Given.{GiveTheSame, find_given};

use four_value::Bits;
use indexmap::IndexMap;
use port_io::NoMemory;
use std::alloc::Global;
use std::marker::Model;

/// The values that an instance gives to parameters (IEEE 1364-2005, clause 12.2.2), seen as a list of names with their values, the first
/// of which counts.
#[derive(Drop)]
pub struct Given {
    values: IndexMap<Vec<u8>, Bits>,
}

impl Model for Given {
    ghost use Rattle.std.specs.Prelude.{List};
    ghost use Rattle.v_flat.specs.Declarations.{Given as given_record};
    ghost use Rattle.v_header.specs.Parameter.Given.{given_in};

    ghost Value = { List given_record };

    ghost view = { λ g. given_in (λ k. k.items) g.values.entries };
}

impl Given {
    /// No parameter is given a value.
    pub fn none(alloc: Global) -> Given
        ensures { result ≡ [] }
    {
        Given {
            values: IndexMap::new(alloc),
        }
    }

    /// The value that is given to a name; none where none is.
    pub fn find(&self, name: &[u8]) -> Option<Bits>
        ensures { result ≡ find_given name.now self.now }
    {
        self.values.get(name).copied()
    }

    /// From now on this value is given to this name, whatever was given to it before. After `NoMemory` all names are given what they
    /// were.
    pub fn add(&mut self, alloc: Global, name: &[u8], value: Bits) -> Result<(), NoMemory>
        ensures ok { OnOk result (GiveTheSame self.new (record { name = name.now; value = value } ∷ self.old)) }
        ensures err { OnErr result (self.new ≡ self.old) }
    {
        let key = name.to_vec(alloc)?;
        self.values.insert(key, value)?;
        Ok(())
    }
}
