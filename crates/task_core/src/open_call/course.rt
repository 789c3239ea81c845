//! Where a call stands, and what its step wants.

use port_io::Sequence;
use py_value::{Fault, Value};
use rig_model::task::Turned;

/// What leaves blocks (the language reference, 7.6, 7.8, 7.9 and 7.10).
#[derive(Drop)]
pub enum Jump {
    /// A fault that was raised.
    Throw(Fault),
    /// `return`, with this value.
    Return(Value),
    Break,
    Continue,
}

/// How a call goes on.
#[derive(Drop)]
pub enum Course {
    /// With the first thing to do.
    On,
    /// With a value, which the first thing to do is to use.
    Has(Value),
    /// It leaves blocks, and drops their marks.
    Leaves(Jump),
}

/// What the step of a call wants.
#[derive(Drop)]
pub enum Wish {
    /// Nothing: the call goes on with its next step.
    Nothing,
    /// This of the runner.
    Asks(Turned),
    /// Another call, of the function of that number, with these values for its parameters, in order.
    Calls {
        function: u32,
        arguments: Sequence<Value>,
    },
    /// To end, as this leaves it.
    Ends(Jump),
}
