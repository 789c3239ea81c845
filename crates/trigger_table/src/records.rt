//! The records of waiting tasks and of what they wait for.
ghost use Rattle.trigger_table.specs.Kept.{IsSound};

use crate::causes::Causes;
use crate::rings::Rings;
use crate::tasks::Tasks;
use slab::Slab;

/// The records of waiting tasks, of what their leaves wait for, and of the waiters, one for each waiting leaf. A waiter is linked in both
/// directions by what it waits for and by its task, and a task by the order in which the tasks began to wait, so that each leaves in
/// constant time.
#[derive(Drop)]
pub struct Records {
    pub(crate) causes: Causes,
    pub(crate) tasks: Tasks,
    /// The numbers of the waiters.
    pub(crate) waiters: Slab<()>,
    /// The waiters on each cause, in the order in which their tasks began to wait.
    pub(crate) by_cause: Rings,
    /// The waiters of each task, from left to right.
    pub(crate) by_task: Rings,
    /// List 0 has the waiting tasks, in the order in which they began to wait.
    pub(crate) order: Rings,
    ghost sound: { IsSound causes.slab.slots tasks.slab.slots waiters.slots by_cause by_task order },
}
