//! What a `for` has still to go over.

use py_syntax::Const;
use py_value::integer::Integer;

/// The next number of a range. It may be one that no value can hold.
#[derive(Clone, Copy)]
pub enum Upcoming {
    /// The first, which was given.
    First(Integer),
    /// The one behind this, further by the step.
    Behind(i128),
}

/// What a `for` has still to go over.
#[derive(Clone, Copy)]
pub enum Left<'a> {
    /// The numbers from the next on that stand before `stop`, each further by `step`, which isn't 0 (the library reference, "Ranges").
    Numbers {
        next: Upcoming,
        stop: Integer,
        step: Integer,
    },
    /// Constants, in order.
    Listed(&'a [Const]),
}
