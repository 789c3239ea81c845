//! Which names are defined.

ghost use Rattle.std.specs.Prelude.{◌≡◌, true, false, OnOk};
ghost use Rattle.v_lex.specs.Lexing.{no_name, with_name};
ghost use Rattle.v_lex.specs.Names.{has_name};

use port_io::NoMemory;
use std::alloc::Global;
use std::collections::BTreeSet;

/// Which names are defined.
#[derive(Drop)]
pub struct Names {
    names: BTreeSet<Vec<u8>>,
}

impl Names {
    /// No name is defined.
    pub fn new(alloc: Global) -> Names
        ensures { has_name result.names ≡ no_name }
    {
        Names {
            names: BTreeSet::new(alloc),
        }
    }

    /// Whether the name is defined.
    pub fn contains(&self, name: &[u8]) -> bool
        ensures { result ≡ has_name self.now.names name.now }
    {
        self.names.contains(name)
    }

    /// Defines a name.
    pub fn define(&mut self, alloc: Global, name: &[u8]) -> Result<(), NoMemory>
        ensures { OnOk result (has_name self.new.names ≡ with_name (has_name self.old.names) name.now true) }
    {
        let key = Vec::from_slice(alloc, name)?;
        self.names.insert(key)?;
        Ok(())
    }

    /// Makes a name undefined.
    pub fn undef(&mut self, name: &[u8])
        ensures { has_name self.new.names ≡ with_name (has_name self.old.names) name.now false }
    {
        self.names.remove(name);
    }
}
