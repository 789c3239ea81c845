//! What each name means in an instance.

ghost use Rattle.std.specs.Prelude.{◌≡◌, None, Some, MatchOption, OnOk, OnErr};
ghost use Rattle.v_flat.specs.Scope.Scope.{means, nothing, named, renamed};

use crate::scope::Meaning;
use indexmap::IndexMap;
use port_io::NoMemory;
use std::alloc::Global;
use std::marker::Model;
use std::mem::replace;

/// What each name means, seen as a list of names with their meanings.
#[derive(Drop)]
pub struct Scope {
    names: IndexMap<Vec<u8>, Meaning>,
}

impl Model for Scope {
    ghost use Rattle.std.specs.Prelude.{List, ℕ};
    ghost use Rattle.v_flat.specs.declared.scope.meaning.Meaning.{Meaning};
    ghost use Rattle.v_flat.specs.Scope.Entries.{entries_of};

    ghost Value = { List (List ℕ × Meaning) };

    ghost view = { λ s. entries_of (λ k. k.items) s.names.entries };
}

impl Scope {
    /// No name means anything.
    pub fn new(alloc: Global) -> Scope
        ensures { means result ≡ nothing }
    {
        Scope {
            names: IndexMap::new(alloc),
        }
    }

    /// What a name means; none where it is not declared.
    pub fn find(&self, name: &[u8]) -> Option<&Meaning>
        ensures { MatchOption result (means self.now name.now ≡ None) (λ meaning. means self.now name.now ≡ Some meaning.now) }
    {
        self.names.get(name)
    }

    /// From now on a name means this, whatever it meant before. After `NoMemory` all names mean what they meant.
    pub fn declare(&mut self, alloc: Global, name: &[u8], meaning: Meaning) -> Result<(), NoMemory>
        ensures ok { OnOk result (means self.new ≡ named name.now meaning (means self.old)) }
        ensures err { OnErr result (self.new ≡ self.old) }
    {
        let key = name.to_vec(alloc)?;
        self.names.insert(key, meaning)?;
        Ok(())
    }

    /// From now on a declared name means this. Answers what it meant before; none where it isn't declared, and then nothing changes.
    pub fn replace(&mut self, name: &[u8], meaning: Meaning) -> Option<Meaning>
        ensures old { result ≡ means self.old name.now }
        ensures new { means self.new ≡ renamed name.now meaning (means self.old) }
    {
        let current = self.names.get_mut(name)?;
        Some(replace(current, meaning))
    }
}
