//! The records of what leaves wait for, with an index.
ghost use Rattle.trigger_table.specs.Indexed.{IsIndexed};
ghost use Rattle.trigger_table.specs.Entries.{cause_name};

use crate::entries::CauseRecord;
use crate::name::Name;
use slab::Slab;
use std::collections::HashMap;

/// The records of what leaves wait for by number, at most one for each, and their numbers.
#[derive(Drop)]
pub(crate) struct Causes {
    pub(crate) slab: Slab<CauseRecord>,
    pub(crate) index: HashMap<Name, usize>,
    ghost indexed: { IsIndexed (⟦<Name as PartialEq>⟧.eq) cause_name slab.slots index },
}
