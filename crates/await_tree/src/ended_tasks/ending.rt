//! How a task has ended.
ghost use Rattle.std.specs.Prelude.{◌≡◌, IfOk, OnErr, IsTrue};
ghost use Rattle.await_tree.specs.EndedTasks.Endings.{is_failure, given_of};
ghost use Rattle.await_tree.specs.EndedTasks.Memory.{takes_memory};

use crate::Given;
use port_io::{Name, NoMemory};
use py_value::{Fault, Value, copy};
use std::alloc::Global;

/// How a task has ended (cocotb 1.8, "Coroutines and Tasks").
#[derive(Drop)]
pub enum Ending {
    /// It returned this value.
    Returned(Value),
    /// It raised this fault, which none of its handlers caught.
    Failed(Fault),
    /// It was killed.
    Killed,
}

/// A copy of a fault. Only want of memory is an error.
fn copy_fault(alloc: Global, fault: &Fault) -> Result<Fault, NoMemory>
    ensures { IfOk result (λ copied. copied ≡ fault.now) }
{
    Ok(Fault {
        kind: fault.kind,
        text: Name::of(alloc, fault.text.bytes())?,
    })
}

impl Ending {
    /// Whether the task failed. It takes no memory.
    pub fn is_failure(&self) -> bool
        ensures { result ≡ is_failure self.now }
    {
        matches!(self, Ending::Failed(_))
    }

    /// What a task is given that joins the ended one (cocotb 1.8, `Join`): a copy of the value, or of the fault, which is raised in it then;
    /// `None` of a task that was killed. Only want of memory is an error, and only where a value is copied that takes memory, or a fault.
    pub fn given(&self, alloc: Global) -> Result<Given, NoMemory>
        ensures is { IfOk result (λ given. given ≡ given_of self.now) }
        ensures want { OnErr result (IsTrue (takes_memory self.now)) }
    {
        match self {
            Ending::Returned(value) => Ok(Given::Value(copy(alloc, value)?)),
            Ending::Failed(fault) => Ok(Given::Fault(copy_fault(alloc, fault)?)),
            Ending::Killed => Ok(Given::Value(Value::Absent)),
        }
    }
}
