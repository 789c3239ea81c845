//! What has come of a part that is done.
ghost use Rattle.std.specs.Prelude.{◌≡◌};
ghost use Rattle.await_tree.specs.Tree.{given_of, is_fault};

use crate::cause::Given;
use py_syntax::FaultKind;
use py_value::{Fault, TaskNo, Trig, Value};

/// How a part of a tree is done.
#[derive(Drop)]
pub enum Finish {
    /// With the trigger itself.
    Reached(Trig),
    /// With what an ended task gives.
    Ended { task: TaskNo, failed: bool },
    /// The time of a limit has come.
    TimedOut,
}

impl Finish {
    /// Whether that is a fault. It takes no memory.
    pub fn is_fault(&self) -> bool
        ensures { result ≡ is_fault self.now }
    {
        match self {
            Finish::Reached(_) => false,
            Finish::Ended { failed, .. } => *failed,
            Finish::TimedOut => true,
        }
    }

    /// What the task is given. It takes no memory.
    pub fn given(self) -> Given
        ensures { result ≡ given_of self }
    {
        match self {
            Finish::Reached(trig) => Given::Value(Value::Trigger(trig)),
            Finish::Ended { task, .. } => Given::Joined(task),
            Finish::TimedOut => Given::Fault(Fault::plain(FaultKind::SimTimeoutError)),
        }
    }
}
