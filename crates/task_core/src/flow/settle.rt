//! What becomes of the calls of a task after the step of one.
ghost use Rattle.std.specs.Prelude.{◌≡◌, IfOk, OnOk, None, false};
ghost use Rattle.rig_model.specs.Task.Moves as moves;
ghost use Rattle.rig_model.specs.Task.Step as meaning;
ghost use Rattle.task_core.specs.OpenCall.Course.{course_in, jump_in, wish_in};
ghost use Rattle.task_core.specs.Flow.Flow.{IsSame, Settles};

use crate::code::Code;
use crate::flow::CodeFlow;
use crate::open_call::{Course, Jump, OpenCall, Wish};
use port_io::{NoMemory, Sequence};
use py_syntax::FaultKind;
use py_value::{Fault, Value};
use rig_model::task::Turned;
use std::alloc::Global;

/// How many calls of a task may be open.
const FRAME_LIMIT: usize = 1000;

/// What a call ends with, as the call around it gets it.
fn result_course(jump: Jump) -> Course
    ensures { course_in result ≡ meaning.result_course (jump_in jump) }
{
    match jump {
        Jump::Throw(fault) => Course::Leaves(Jump::Throw(fault)),
        Jump::Return(value) => Course::Has(value),
        Jump::Break | Jump::Continue => Course::Has(Value::Absent),
    }
}

/// The same, as the task ends with it.
fn ending(jump: Jump) -> Turned
    ensures { result ≡ meaning.ending (jump_in jump) }
{
    match jump {
        Jump::Throw(fault) => Turned::Raised(fault),
        Jump::Return(value) => Turned::Done(value),
        Jump::Break | Jump::Continue => Turned::Done(Value::Absent),
    }
}

/// A value takes the place of another, of which nothing is left.
fn put<T: Drop>(place: &mut T, value: T)
    ensures { place.new ≡ value }
{
    *place = value;
}

impl<'a, C: Code<'a>> CodeFlow<'a, C> {
    /// A call within the innermost one, where fewer calls are open than may be; else RuntimeError is raised where it stands. Only want of memory is
    /// an error.
    fn open(
        &mut self,
        alloc: Global,
        function: u32,
        arguments: &Sequence<Value>,
    ) -> Result<(), NoMemory>
        requires { self.old.ended ≡ false }
        ensures same { IsSame self.old self.new }
        ensures opened { OnOk result (Settles C.reads (moves.Calls function arguments.now) self.old self.new None) }
    {
        if self.around.len() + 1 < FRAME_LIMIT {
            let inner = OpenCall::numbered(alloc, self.functions, function, arguments)?;
            self.around.push(std::mem::replace(&mut self.call, inner))?;
        } else {
            let fault = Fault::plain(FaultKind::RuntimeError);
            put(&mut self.call.course, Course::Leaves(Jump::Throw(fault)));
        }
        Ok(())
    }

    /// The innermost call ends, and the call around it gets what it ends with; the last one ends the task, which tells so. It takes no memory.
    fn close(&mut self, jump: Jump) -> Option<Turned>
        requires { self.old.ended ≡ false }
        ensures same { IsSame self.old self.new }
        ensures closed { Settles C.reads (moves.Ends (jump_in jump)) self.old self.new result }
    {
        match self.around.pop() {
            Some(call) => {
                put(&mut self.call, call);
                put(&mut self.call.course, result_course(jump));
                None
            }
            None => {
                self.ended = true;
                Some(ending(jump))
            }
        }
    }

    /// What becomes of the calls after the step of the innermost one, which wants this: what the task wants. Only want of memory is an error.
    pub(crate) fn settle(&mut self, alloc: Global, wish: Wish) -> Result<Option<Turned>, NoMemory>
        requires { self.old.ended ≡ false }
        ensures same { IsSame self.old self.new }
        ensures settled { IfOk result (Settles C.reads (wish_in wish) self.old self.new) }
    {
        match wish {
            Wish::Nothing => Ok(None),
            Wish::Asks(turned) => Ok(Some(turned)),
            Wish::Calls {
                function,
                arguments,
            } => {
                self.open(alloc, function, &arguments)?;
                Ok(None)
            }
            Wish::Ends(jump) => Ok(self.close(jump)),
        }
    }
}
