//! What is asked of the records of what leaves wait for.
ghost use Rattle.std.specs.Prelude.{◌≡◌, ◌≢◌, ℕ, [], Some, None, IfOk, OnErr, IfSome, IfNone, slice_index_or, false};
ghost use Rattle.trigger_table.specs.Entries.{HasCause};
ghost use Rattle.trigger_table.specs.Indexed.{Sets};
ghost use Rattle.trigger_table.specs.declared.entries.CauseRecord.{CauseRecord};

use crate::causes::Causes;
use crate::entries::CauseRecord;
use crate::name::name_of;
use await_tree::Awaited;
use port_io::NoMemory;
use slab::Slab;
use std::alloc::Global;
use std::collections::HashMap;

impl Causes {
    /// No record. It takes no memory.
    pub(crate) fn new(alloc: Global) -> Self
        ensures { result.slab.slots ≡ [] }
    {
        Causes {
            slab: Slab::new(alloc),
            index: HashMap::new(alloc),
        }
    }

    /// The number of the record.
    pub(crate) fn find(&self, on: Awaited) -> Option<usize>
        ensures some { IfSome result (λ number. HasCause self.now.slab.slots number on) }
        ensures none { IfNone result ((number : ℕ) → ¬ HasCause self.now.slab.slots number on) }
    {
        self.index.get(&name_of(on)).copied()
    }

    /// The record of this number.
    pub(crate) fn get(&self, number: usize) -> Option<CauseRecord>
        ensures { result ≡ slice_index_or self.now.slab.slots number None }
    {
        self.slab.get(number).copied()
    }

    /// Makes a record where there is none.
    pub(crate) fn make(&mut self, on: Awaited) -> Result<usize, NoMemory>
        requires { (number : ℕ) → ¬ HasCause self.old.slab.slots number on }
        ensures vacant { IfOk result (λ number. slice_index_or self.old.slab.slots number None ≡ None) }
        ensures ok { IfOk result (λ number. Sets self.old.slab.slots self.new.slab.slots number (Some (record { on = on; held = false }))) }
        ensures err { OnErr result (self.new.slab.slots ≡ self.old.slab.slots) }
    {
        self.slab.reserve(1)?;
        let number = self.slab.vacant_key();
        self.index.insert(name_of(on), number)?;
        self.slab.insert_reserved(CauseRecord { on, held: false });
        Ok(number)
    }

    /// Notes whether the runner holds it.
    pub(crate) fn set_held(&mut self, number: usize, held: bool)
        requires { slice_index_or self.old.slab.slots number None ≢ None }
        ensures { (kept : CauseRecord) → slice_index_or self.old.slab.slots number None ≡ Some kept
            → Sets self.old.slab.slots self.new.slab.slots number (Some (record kept { held = held })) }
    {
        if let Some(record) = self.slab.get_mut(number) {
            record.held = held;
        }
    }

    /// Takes out a record.
    pub(crate) fn remove(&mut self, number: usize) -> CauseRecord
        requires { slice_index_or self.old.slab.slots number None ≢ None }
        ensures value { slice_index_or self.old.slab.slots number None ≡ Some result }
        ensures sets { Sets self.old.slab.slots self.new.slab.slots number None }
        ensures gone { (other : ℕ) → ¬ HasCause self.new.slab.slots other result.on }
    {
        let record = self.slab.remove(number);
        self.index.remove(&name_of(record.on));
        record
    }
}
