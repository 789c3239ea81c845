//! What a keeper of waiting tasks does, by the table.
ghost use Rattle.trigger_table.specs.Table.{held_in, waiting_in};

use crate::keeper::TriggerTable;
use await_tree::wait_list::{Awaits, Ready, Steps};
use await_tree::{Cause, Tree};
use gpi::{Fired, Gpi, Key};
use port_io::NoMemory;
use py_value::{LockNo, TaskNo};
use std::sync::ledger::Ledger;

impl Awaits for TriggerTable {
    ghost waiting = { waiting_in };

    ghost held = { held_in };

    fn begin<K: Gpi, L: Ledger>(
        &mut self,
        kernel: &mut K,
        task: TaskNo,
        tree: Tree,
        steps: &mut Steps<L>,
    ) -> Result<(), NoMemory> {
        TriggerTable::begin(self, kernel, task, tree, steps)
    }

    fn fire<K: Gpi, L: Ledger>(
        &mut self,
        kernel: &mut K,
        fired: Fired,
        ready: &mut Ready,
        steps: &mut Steps<L>,
    ) {
        TriggerTable::fire(self, kernel, fired, ready, steps);
    }

    fn wake<K: Gpi, L: Ledger>(
        &mut self,
        kernel: &mut K,
        cause: Cause,
        ready: &mut Ready,
        steps: &mut Steps<L>,
    ) -> u32 {
        TriggerTable::wake(self, kernel, cause, ready, steps)
    }

    fn grant<K: Gpi, L: Ledger>(
        &mut self,
        kernel: &mut K,
        lock: LockNo,
        ready: &mut Ready,
        steps: &mut Steps<L>,
    ) -> bool {
        TriggerTable::grant(self, kernel, lock, ready, steps)
    }

    fn drop_task<K: Gpi, L: Ledger>(&mut self, kernel: &mut K, task: TaskNo, steps: &mut Steps<L>) {
        TriggerTable::drop_task(self, kernel, task, steps);
    }

    fn hold<K: Gpi, L: Ledger>(
        &mut self,
        kernel: &mut K,
        key: Key,
        steps: &mut Steps<L>,
    ) -> Result<(), NoMemory> {
        TriggerTable::hold(self, kernel, key, steps)
    }

    fn release<K: Gpi, L: Ledger>(&mut self, kernel: &mut K, key: Key, steps: &mut Steps<L>) {
        TriggerTable::release(self, kernel, key, steps);
    }

    fn clear<K: Gpi, L: Ledger>(&mut self, kernel: &mut K, steps: &mut Steps<L>) {
        TriggerTable::clear(self, kernel, steps);
    }
}
