//! The records of waiting tasks, with an index.
ghost use Rattle.std.specs.Prelude.{nat_eq};
ghost use Rattle.trigger_table.specs.Indexed.{IsIndexed};
ghost use Rattle.trigger_table.specs.Entries.{task_name};

use crate::entries::TaskRecord;
use slab::Slab;
use std::collections::HashMap;

/// The records of waiting tasks by number, at most one for each task, and their numbers.
#[derive(Drop)]
pub(crate) struct Tasks {
    pub(crate) slab: Slab<TaskRecord>,
    pub(crate) index: HashMap<u32, usize>,
    ghost indexed: { IsIndexed nat_eq task_name slab.slots index },
}
