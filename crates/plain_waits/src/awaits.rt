//! What a keeper of waiting tasks does, by a list.
ghost use Rattle.std.specs.Prelude.{◌≡◌, []};
ghost use Rattle.plain_waits.specs.Kept.{waiting_in};

use crate::keeper::WaitList;
use crate::keys::register_unless;
use crate::waiter::{Waiter, let_fall};
use await_tree::wait_list::{Awaits, Ready, Steps};
use await_tree::{Awaited, Cause, Tree};
use gpi::{Fired, Gpi, Key};
use port_io::NoMemory;
use py_value::{LockNo, TaskNo};
use std::alloc::Global;
use std::sync::ledger::Ledger;

impl WaitList {
    /// Nothing waits, and no key is held. It takes no memory.
    pub fn new(alloc: Global) -> Self
        ensures waiting { waiting_in result ≡ [] }
        ensures held { result.held.items ≡ [] }
    {
        WaitList {
            waiting: Vec::new(alloc),
            held: Vec::new(alloc),
        }
    }
}

impl Awaits for WaitList {
    ghost waiting = { waiting_in };

    ghost held = { λ list. list.held.items };

    fn begin<K: Gpi, L: Ledger>(
        &mut self,
        kernel: &mut K,
        task: TaskNo,
        tree: Tree,
        _steps: &mut Steps<L>,
    ) -> Result<(), NoMemory> {
        let leaves = tree.leaves();
        match self.prepare(kernel, leaves.as_slice()) {
            Ok(()) => {
                self.waiting.push_reserved(Waiter::new(task, tree));
                Ok(())
            }
            Err(NoMemory) => {
                let_fall(tree);
                Err(NoMemory)
            }
        }
    }

    fn fire<K: Gpi, L: Ledger>(
        &mut self,
        kernel: &mut K,
        fired: Fired,
        ready: &mut Ready,
        _steps: &mut Steps<L>,
    ) {
        self.take_out_all(fired);
        self.serve_all(kernel, fired, ready);
        self.register_fired(kernel, fired);
    }

    fn wake<K: Gpi, L: Ledger>(
        &mut self,
        kernel: &mut K,
        cause: Cause,
        ready: &mut Ready,
        _steps: &mut Steps<L>,
    ) -> u32 {
        let reached = self.reached(cause.reach());
        let none = Fired {
            first: None,
            second: None,
        };
        self.serve(kernel, cause, none, ready);
        reached
    }

    fn grant<K: Gpi, L: Ledger>(
        &mut self,
        kernel: &mut K,
        lock: LockNo,
        ready: &mut Ready,
        _steps: &mut Steps<L>,
    ) -> bool {
        let at = self.first_on(Awaited::Lock(lock));
        if at == self.waiting.len() {
            return false;
        }
        self.grant_at(kernel, at, lock, ready);
        true
    }

    fn drop_task<K: Gpi, L: Ledger>(
        &mut self,
        kernel: &mut K,
        task: TaskNo,
        _steps: &mut Steps<L>,
    ) {
        self.drop_all_of(kernel, task);
    }

    fn hold<K: Gpi, L: Ledger>(
        &mut self,
        kernel: &mut K,
        key: Key,
        _steps: &mut Steps<L>,
    ) -> Result<(), NoMemory> {
        self.held.reserve(1)?;
        let waited = self.is_waited(key);
        register_unless(kernel, waited, key)?;
        self.held.push_reserved(key);
        Ok(())
    }

    fn release<K: Gpi, L: Ledger>(&mut self, kernel: &mut K, key: Key, _steps: &mut Steps<L>) {
        self.take_out(key);
        if !self.is_waited(key) {
            kernel.remove(key);
        }
    }

    fn clear<K: Gpi, L: Ledger>(&mut self, kernel: &mut K, _steps: &mut Steps<L>) {
        self.drop_all(kernel);
    }
}
