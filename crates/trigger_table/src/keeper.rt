//! The table of triggers.
ghost use Rattle.std.specs.Prelude.{◌≤◌, length};
ghost use Rattle.await_tree.specs.WaitList.Limits.{waiting_limit};
ghost use Rattle.trigger_table.specs.Records.{rows_in, state_in};
ghost use Rattle.trigger_table.specs.Tied.{IsKept};

use crate::records::Records;

/// A table of the tasks that wait for triggers (cocotb 1.8, "Triggers"), in the order in which they began to wait, and of the keys that the
/// runner itself holds. A call takes as many steps as the leaves that it is about, however many other tasks wait.
#[derive(Drop)]
pub struct TriggerTable {
    pub(crate) records: Records,
    ghost kept: { IsKept (state_in records) },
    ghost few: { length (rows_in records) ≤ waiting_limit },
}
