//! Open calls.
ghost use Rattle.std.specs.Prelude.{◌≡◌, ◌++◌, ◌∷◌, [], map, IfOk, MatchOption, OnOk};
ghost use Rattle.py_value.specs.Answer.{plain_fault};
ghost use Rattle.rig_model.specs.Task.Frame as frame;
ghost use Rattle.rig_model.specs.Task.Frame.{items};
ghost use Rattle.rig_model.specs.Task.Moves as moves;
ghost use Rattle.task_core.specs.Code.Functions.{function_of};
ghost use Rattle.task_core.specs.OpenCall.Call.{Does, Ended, Goes, IsSame, Named, RaisedBy, frame_in};
ghost use Rattle.task_core.specs.OpenCall.Course.{jump_in};
ghost use Rattle.task_core.specs.OpenCall.Parts.{from_mark, mark_in, stop_in, todo_of, todos_in, use_in};

use crate::code::{Callable, Code};
use crate::open_call::{Course, Jump, Mark, Slots, Stop, Todo, TodoStack, Use, Wish};
use port_io::{Name, NoMemory, Sequence};
use py_evaluate::attribute::OperationFault;
use py_syntax::FaultKind;
use py_value::{Fault, Value};
use rig_model::task::Turned;
use std::alloc::Global;

/// A call that hasn't returned (the language reference, 8.9.1).
#[derive(Drop)]
pub struct OpenCall<'a, C> {
    /// Its names, with their values.
    pub slots: Slots<'a>,
    /// How it goes on. In the midst of a step it is of no account.
    pub course: Course,
    /// What it has still to do; in the midst of a step what stands behind the thing that is done.
    pub todo: TodoStack<'a, C>,
}

impl<'a, C: Code<'a>> OpenCall<'a, C> {
    /// A call of a function before its first step, with these values for its parameters, in order. Only want of memory is an error.
    pub fn entered(
        alloc: Global,
        function: &Callable<'a, C>,
        values: &Sequence<Value>,
    ) -> Result<OpenCall<'a, C>, NoMemory>
        ensures { IfOk result (λ call. frame_in C.reads call ≡ frame.entered (function_of C.reads function.now) values.now) }
    {
        let slots = Slots::of(alloc, function.parameters, function.others, values)?;
        let mut todo = TodoStack::new(alloc);
        todo.push_block(function.body)?;
        Ok(OpenCall {
            slots,
            course: Course::On,
            todo,
        })
    }

    /// A call of the function of that number, the same way; where there is none, a call that has nothing to do. Only want of memory is an error.
    pub fn numbered(
        alloc: Global,
        functions: &[Callable<'a, C>],
        number: u32,
        values: &Sequence<Value>,
    ) -> Result<OpenCall<'a, C>, NoMemory>
        ensures { IfOk result (λ call. frame_in C.reads call
            ≡ frame.entered (frame.function_at (map (function_of C.reads) functions.now) number) values.now) }
    {
        match functions.get(number as usize) {
            Some(function) => OpenCall::entered(alloc, function, values),
            None => Ok(OpenCall {
                slots: Slots::none(alloc),
                course: Course::On,
                todo: TodoStack::new(alloc),
            }),
        }
    }

    /// How the call goes on. It goes on with the first thing to do then.
    pub fn take_course(&mut self) -> Course
        ensures course { result ≡ self.old.course }
        ensures rest { (self.new.slots ≡ self.old.slots) × (self.new.todo ≡ self.old.todo) }
    {
        std::mem::replace(&mut self.course, Course::On)
    }

    /// The step ends, and the call goes on.
    pub fn go_on(&mut self) -> Wish
        ensures { Ended C.reads self.old self.new result frame.On moves.Nothing }
    {
        self.course = Course::On;
        Wish::Nothing
    }

    /// The step ends, and the call goes on with a value that is to be used.
    pub fn go_on_with(&mut self, value: Value) -> Wish
        ensures { Ended C.reads self.old self.new result (frame.Has value) moves.Nothing }
    {
        self.course = Course::Has(value);
        Wish::Nothing
    }

    /// The step ends, and blocks are left.
    pub fn leave(&mut self, jump: Jump) -> Wish
        ensures { Ended C.reads self.old self.new result (frame.Leaves (jump_in jump)) moves.Nothing }
    {
        self.course = Course::Leaves(jump);
        Wish::Nothing
    }

    /// The step ends, and a fault of an operation is raised, which says nothing.
    pub fn raise(&mut self, kind: FaultKind) -> Wish
        ensures { Ended C.reads self.old self.new result (frame.Leaves (frame.Throw (plain_fault kind))) moves.Nothing }
    {
        self.leave(Jump::Throw(Fault::plain(kind)))
    }

    /// The step ends with what an operation gave in place of a value: its fault is raised, or memory was short.
    pub fn fail(&mut self, fault: OperationFault) -> Result<Wish, NoMemory>
        ensures { IfOk result (RaisedBy C.reads fault self.old self.new) }
    {
        match fault {
            OperationFault::Raised(kind) => Ok(self.raise(kind)),
            OperationFault::OutOfMemory => Err(NoMemory),
        }
    }

    /// The step ends, and the call goes on; this is wanted of the runner.
    pub fn want(&mut self, turned: Turned) -> Wish
        ensures { Ended C.reads self.old self.new result frame.On (moves.Asks turned) }
    {
        self.course = Course::On;
        Wish::Asks(turned)
    }

    /// The step ends while blocks are left; this is wanted of the runner.
    pub fn want_leaving(&mut self, jump: Jump, turned: Turned) -> Wish
        ensures { Ended C.reads self.old self.new result (frame.Leaves (jump_in jump)) (moves.Asks turned) }
    {
        self.course = Course::Leaves(jump);
        Wish::Asks(turned)
    }

    /// The step ends, and another call is wanted, whose value this one is given.
    pub fn call(&mut self, function: u32, arguments: Sequence<Value>) -> Wish
        ensures { Ended C.reads self.old self.new result frame.On (moves.Calls function arguments) }
    {
        self.course = Course::On;
        Wish::Calls {
            function,
            arguments,
        }
    }

    /// The step ends, and the call too.
    pub fn end(&mut self, jump: Jump) -> Wish
        ensures { Ended C.reads self.old self.new result frame.On (moves.Ends (jump_in jump)) }
    {
        self.course = Course::On;
        Wish::Ends(jump)
    }

    /// Gives a name this value, or leaves it unassigned. It takes no memory.
    pub fn name(&mut self, name: &Name, value: Option<Value>)
        ensures { Named self.old self.new name.now value }
    {
        self.slots.set(name, value);
    }

    /// The step ends, and the call goes on with the statements of a block before the rest. Only want of memory is an error.
    pub fn enter(&mut self, block: C) -> Result<Wish, NoMemory>
        ensures { IfOk result (λ wish. Goes C.reads self.old self.new wish (items (C.reads block).block ++ todos_in C.reads self.old.todo)) }
    {
        self.todo.push_block(block)?;
        Ok(self.go_on())
    }

    /// The step ends, and the call goes on with the statements of a block and behind them a mark before the rest. Only want of memory is an error.
    pub fn enter_marked(&mut self, block: C, mark: Mark<'a, C>) -> Result<Wish, NoMemory>
        ensures { IfOk result (λ wish. Goes C.reads self.old self.new wish
            ((items (C.reads block).block ++ mark_in C.reads mark.entry ∷ []) ++ todos_in C.reads self.old.todo)) }
    {
        self.todo.push_marked(block, mark)?;
        Ok(self.go_on())
    }

    /// Puts a mark before the rest. Only want of memory is an error.
    pub fn first_mark(&mut self, mark: Mark<'a, C>) -> Result<(), NoMemory>
        ensures { OnOk result (Does C.reads self.old self.new (mark_in C.reads mark.entry ∷ todos_in C.reads self.old.todo)) }
    {
        self.todo.push(mark)
    }

    /// Puts the use of a value before the rest. Only want of memory is an error.
    pub fn first_use(&mut self, what: Use<'a>) -> Result<(), NoMemory>
        ensures { OnOk result (Does C.reads self.old self.new (frame.Uses (use_in what.entry) ∷ todos_in C.reads self.old.todo)) }
    {
        self.todo.push(Mark::Uses(what))
    }

    /// Takes the first thing to do off; None where nothing is to do.
    pub fn take(&mut self) -> Option<Todo<'a, C>>
        ensures took { MatchOption result ((todos_in C.reads self.old.todo ≡ []) × (todos_in C.reads self.new.todo ≡ []))
            (λ todo. todos_in C.reads self.old.todo ≡ todo_of C.reads todo ∷ todos_in C.reads self.new.todo) }
        ensures same { IsSame self.old self.new }
    {
        self.todo.take()
    }

    /// Takes off what is to do up to the first mark that counts where blocks are left, and that mark; None where there is none, and nothing is to do
    /// then.
    pub fn take_mark(&mut self) -> Option<Stop<'a, C>>
        ensures took { MatchOption result ((from_mark (todos_in C.reads self.old.todo) ≡ []) × (todos_in C.reads self.new.todo ≡ []))
            (λ stop. from_mark (todos_in C.reads self.old.todo) ≡ stop_in C.reads stop ∷ todos_in C.reads self.new.todo) }
        ensures same { IsSame self.old self.new }
    {
        self.todo.take_mark()
    }
}
