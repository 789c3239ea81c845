//! The endings of tasks, by number.
ghost use Rattle.std.specs.Prelude.{◌≡◌, ◌<◌, length, [], None, IfOk, OnOk, OnErr, IsTrue};
ghost use Rattle.await_tree.specs.EndedTasks.Endings as endings;
ghost use Rattle.await_tree.specs.EndedTasks.Memory as memory;

use crate::Given;
use crate::ended_tasks::ending::Ending;
use port_io::NoMemory;
use py_value::{TaskNo, Value};
use std::alloc::Global;
use std::marker::Model;

/// The tasks that were started in a test, which contracts see as `Endings` of `specs/Endings.antt`: of each of them how it has ended, or
/// that it lives. Only `add`, `joined` and `told` take memory.
#[derive(Drop)]
pub struct EndedTasks {
    endings: Vec<Option<Ending>>,
}

impl Model for EndedTasks {
    ghost use Rattle.std.specs.Prelude.{◌≤◌, length};
    ghost use Rattle.std.specs.Coded.{codes};
    ghost use Rattle.py_value.specs.TriggerCode.{trig_code};
    ghost use Rattle.await_tree.specs.EndedTasks.Limits.{start_limit};
    ghost use Rattle.await_tree.specs.EndedTasks.Endings.{Endings};

    ghost Value = { Endings };

    ghost coded = { Prim.hlevel (codes, trig_code) };

    ghost view = { λ ended. ended.endings.items };

    ghost invariant = { λ ended. length ended.endings.items ≤ start_limit };
}

impl EndedTasks {
    /// No task was started. It takes no memory.
    pub fn new(alloc: Global) -> EndedTasks
        ensures { result ≡ [] }
    {
        EndedTasks {
            endings: Vec::new(alloc),
        }
    }

    /// A task more was started, which lives, and its number. Fewer than 16,777,216 must have been started before. Only want of memory is an
    /// error, and after it nothing has changed.
    pub fn add(&mut self) -> Result<TaskNo, NoMemory>
        requires { length self.old < endings.start_limit }
        ensures number { IfOk result (λ task. task.0 ≡ length self.old) }
        ensures ok { OnOk result (self.new ≡ endings.with_task self.old) }
        ensures err { OnErr result (self.new ≡ self.old) }
    {
        let number = self.count();
        self.endings.push(None)?;
        Ok(TaskNo(number))
    }

    /// Drops what is known of all tasks, as the end of a test does. It takes no memory.
    pub fn clear(&mut self)
        ensures { self.new ≡ [] }
    {
        self.endings.clear();
    }

    /// How many tasks were started: the number of the next one.
    pub fn count(&self) -> u32
        ensures { result ≡ length self.now }
    {
        self.endings.len() as u32
    }

    /// Whether a task that was started has ended (cocotb 1.8, `Task.done`). It takes no memory.
    pub fn is_done(&self, task: TaskNo) -> bool
        requires { task.0 < length self.now }
        ensures { result ≡ endings.is_done task self.now }
    {
        self.endings[task.0 as usize].is_some()
    }

    /// Of a task that was started and has ended, whether it failed; None where it lives. It takes no memory.
    pub fn failed(&self, task: TaskNo) -> Option<bool>
        requires { task.0 < length self.now }
        ensures { result ≡ endings.failed task self.now }
    {
        match &self.endings[task.0 as usize] {
            Some(ending) => Some(ending.is_failure()),
            None => None,
        }
    }

    /// A live task ends so (cocotb 1.8, "Coroutines and Tasks"). It takes no memory.
    pub fn end(&mut self, task: TaskNo, ending: Ending)
        requires started { task.0 < length self.old }
        requires lives { endings.ending_of task self.old ≡ None }
        ensures { self.new ≡ endings.with_ending task ending self.old }
    {
        self.endings[task.0 as usize] = Some(ending);
    }

    /// What a task is given that joins one that has ended (cocotb 1.8, `Join`): a copy of the value that it returned, or of its fault; `None`
    /// where it was killed, and `None` of a live one too. Only want of memory is an error, and only where a value is copied that takes
    /// memory, or a fault.
    pub fn joined(&self, alloc: Global, task: TaskNo) -> Result<Given, NoMemory>
        requires { task.0 < length self.now }
        ensures is { IfOk result (λ given. given ≡ endings.joined task self.now) }
        ensures want { OnErr result (IsTrue (memory.join_takes_memory task self.now)) }
    {
        match &self.endings[task.0 as usize] {
            Some(ending) => ending.given(alloc),
            None => Ok(Given::Value(Value::Absent)),
        }
    }

    /// What a task is given, where the result of a join is put in the place of `Given::Joined`; all else as it is. Only want of memory is an
    /// error, and only of a result of a join.
    pub fn told(&self, alloc: Global, given: Given) -> Result<Given, NoMemory>
        requires { endings.HasStarted given self.now }
        ensures is { IfOk result (λ told. told ≡ endings.told_given given self.now) }
        ensures want { OnErr result (memory.IsWant given self.now) }
    {
        match given {
            Given::Joined(task) => self.joined(alloc, task),
            given => Ok(given),
        }
    }
}
