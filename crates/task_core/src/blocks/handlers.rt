//! Handlers of a `try`.
ghost use Rattle.std.specs.Prelude.{◌≡◌, IfOk};
ghost use Rattle.py_syntax.specs.StatementTrees.{view_caught};
ghost use Rattle.rig_model.specs.Task.Leaving as meaning;
ghost use Rattle.task_core.specs.OpenCall.Course.{jump_in};
ghost use Rattle.task_core.specs.Blocks.Handlers.{first_catching, handler_in};
ghost use Rattle.task_core.specs.Blocks.Steps.{IsStep};

use crate::code::{Code, FirstHandler};
use crate::open_call::{Jump, Mark, OpenCall, Wish};
use port_io::NoMemory;
use py_syntax::{Caught, FaultKind};
use py_value::{Fault, Value};
use task_step::statement_values::catches;

/// The first `except` that catches a fault of this kind, if there is one.
fn first_for<'a, C: Code<'a>>(kind: FaultKind, handlers: C) -> Option<FirstHandler<'a, C>>
    ensures { handler_in C.reads result ≡ first_catching kind (C.reads handlers).handlers }
{
    let mut rest = handlers;
    while let Some(handler) = rest.first_handler() {
        if catches(handler.caught, kind) {
            return Some(handler);
        }
        rest = handler.rest;
    }
    None
}

/// The block of an `except` that has caught a fault comes next. Its name, where it has one, holds the fault until the block is left.
fn handle<'a, C: Code<'a>>(
    call: &mut OpenCall<'a, C>,
    caught: &'a Caught,
    fault: Fault,
    block: C,
) -> Result<Wish, NoMemory>
    ensures { IfOk result (IsStep C.reads (meaning.handle (view_caught caught.now) fault (C.reads block).block) call.old call.new) }
{
    match caught {
        Caught::As(_, name) => {
            call.name(name, Some(Value::Caught(fault)));
            call.enter_marked(block, Mark::Bound(name))
        }
        Caught::All | Caught::Kind(_) | Caught::Kinds(_) => call.enter(block),
    }
}

/// A fault comes to the handlers of a `try`: the first that catches it handles it, and where none does it goes on.
fn find_handler<'a, C: Code<'a>>(
    call: &mut OpenCall<'a, C>,
    fault: Fault,
    handlers: C,
) -> Result<Wish, NoMemory>
    ensures { IfOk result (IsStep C.reads (meaning.find_handler (C.reads handlers).handlers fault) call.old call.new) }
{
    match first_for(fault.kind, handlers) {
        Some(handler) => handle(call, handler.caught, fault, handler.block),
        None => Ok(call.leave(Jump::Throw(fault))),
    }
}

/// What leaves blocks comes to the handlers of a `try`, of which only a fault takes any notice. Only want of memory is an error.
pub(crate) fn at_handlers<'a, C: Code<'a>>(
    call: &mut OpenCall<'a, C>,
    jump: Jump,
    handlers: C,
) -> Result<Wish, NoMemory>
    ensures { IfOk result (IsStep C.reads (meaning.at_handlers (jump_in jump) (C.reads handlers).handlers) call.old call.new) }
{
    match jump {
        Jump::Throw(fault) => find_handler(call, fault, handlers),
        other => Ok(call.leave(other)),
    }
}
