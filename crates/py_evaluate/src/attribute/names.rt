//! The names of a function.
use port_io::Name;
use py_value::Value;

/// The names of a function with their values. No call takes memory.
pub trait Locals {
    ghost use Rattle.std.specs.Prelude.{◌≡◌, MatchOption, Some, None};
    ghost use Rattle.py_evaluate.specs.Attribute.Look.{Names, local};

    /// The names, with the values that they have.
    ghost names: { Self → Names };

    /// The value of a name; None exactly where it is unassigned.
    fn local(&self, name: &Name) -> Option<&Value>
        ensures { MatchOption result (local (names self.now) name.now ≡ None) (λ v. local (names self.now) name.now ≡ Some v.now) };
}
