//! Functions that can be called.

use port_io::{Name, Sequence};

/// A function (the language reference, 8.7): its parameters, its other names, and the place where its body begins.
#[derive(Clone, Copy)]
pub struct Callable<'a, C> {
    pub parameters: &'a Sequence<Name>,
    pub others: &'a Sequence<Name>,
    pub body: C,
}
