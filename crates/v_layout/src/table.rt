//! A table of what is declared of each name.

ghost use Rattle.std.specs.Prelude.{◌≡◌, [], OnErr, OnOk, length, option_map, slice_get};
ghost use Rattle.v_flat.specs.Declarations.{find_declared};
ghost use Rattle.v_layout.specs.Kept.{named_declared, put_declared};
ghost use Rattle.v_layout.specs.Order.{line_in};

use crate::details::{Declared, Line};
use indexmap::IndexMap;
use port_io::NoMemory;
use std::alloc::Global;
use std::marker::Model;

/// What is declared of each name, in the order of first declarations, seen as the list of it.
#[derive(Drop)]
pub(crate) struct Table {
    names: IndexMap<Vec<u8>, Declared>,
}

impl Model for Table {
    ghost use Rattle.std.specs.Prelude.{List};
    ghost use Rattle.v_flat.specs.Declarations.{Declared as declared_record};
    ghost use Rattle.v_layout.specs.Kept.{declared_in};

    ghost Value = { List declared_record };

    ghost view = { λ t. declared_in (λ k. k.items) t.names.entries };
}

impl Table {
    /// No name is declared.
    pub(crate) fn none(alloc: Global) -> Table
        ensures { result ≡ [] }
    {
        Table {
            names: IndexMap::new(alloc),
        }
    }

    /// What is declared of a name; none where it is not declared.
    pub(crate) fn find(&self, name: &[u8]) -> Option<Declared>
        ensures { option_map (named_declared name.now) result ≡ find_declared name.now self.now }
    {
        self.names.get(name).copied()
    }

    /// How many names are declared.
    pub(crate) fn len(&self) -> usize
        ensures { result ≡ length self.now }
    {
        self.names.len()
    }

    /// The declared name at a place, from 0; none behind the last.
    pub(crate) fn get(&self, index: usize) -> Option<Line<'_>>
        ensures { option_map line_in result ≡ slice_get self.now index }
    {
        match self.names.get_index(index) {
            Some((name, declared)) => Some(Line {
                name,
                declared: *declared,
            }),
            None => None,
        }
    }

    /// From now on this is declared of a name, in its place if it has one. After `NoMemory` all is as it was.
    pub(crate) fn put(
        &mut self,
        alloc: Global,
        name: &[u8],
        declared: Declared,
    ) -> Result<(), NoMemory>
        ensures ok { OnOk result (self.new ≡ put_declared (named_declared name.now declared) self.old) }
        ensures err { OnErr result (self.new ≡ self.old) }
    {
        let key = name.to_vec(alloc)?;
        self.names.insert(key, declared)?;
        Ok(())
    }
}
