//! Parameters with their values.

ghost use Rattle.std.specs.Prelude.{◌≡◌};
ghost use Rattle.v_header.specs.Parameter.Values.{meaning_of};

use four_value::Bits;
use v_flat::scope::{Bounds, Meaning, Scope};

/// The value of a parameter (IEEE 1364-2005, clauses 4.10 and 12.2).
#[derive(Clone, Copy)]
pub struct Value {
    /// Its digits, as many as its range has.
    pub digits: Bits,
    /// Its range: the declared one, or that of its value's own width, `[width-1:0]`.
    pub bounds: Bounds,
}

impl Value {
    /// What the name of the parameter means.
    pub fn meaning(self) -> Meaning
        ensures { result ≡ meaning_of self }
    {
        Meaning::Constant(self.digits, self.bounds)
    }
}

/// A parameter with its value.
#[derive(Drop)]
pub struct Constant {
    /// Its name.
    pub name: Vec<u8>,
    /// Its value.
    pub value: Value,
}

/// The parameters of an instance.
#[derive(Drop)]
pub struct Constants {
    /// The parameters in their order, each name once.
    pub list: Vec<Constant>,
    /// What each name means where parameters alone are known: these constants, and what names mean without them.
    pub scope: Scope,
}
