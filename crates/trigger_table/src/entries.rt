//! What is kept of what leaves wait for, and of waiting tasks.

use await_tree::{Awaited, Tree};
use py_value::TaskNo;

/// What is kept of a key, an event, a lock or a joined task that leaves wait for or the runner holds.
#[derive(Clone, Copy, Drop)]
pub struct CauseRecord {
    pub on: Awaited,
    /// The runner itself holds it.
    pub held: bool,
}

/// What is kept of a waiting task.
#[derive(Drop)]
pub struct TaskRecord {
    pub task: TaskNo,
    pub tree: Tree,
}
