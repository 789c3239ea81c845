//! Copies of constants.

ghost use Rattle.std.specs.Prelude.{◌≡◌, IfOk};

use port_io::{Name, NoMemory};
use py_syntax::Const;
use std::alloc::Global;

/// An equal constant. Only want of memory is an error.
pub fn copied(alloc: Global, constant: &Const) -> Result<Const, NoMemory>
    ensures { IfOk result (λ copy. copy ≡ constant.now) }
{
    match constant {
        Const::Absent => Ok(Const::Absent),
        Const::Truth(value) => Ok(Const::Truth(*value)),
        Const::Whole(value) => Ok(Const::Whole(*value)),
        Const::Text(text) => Ok(Const::Text(Name::of(alloc, text.bytes())?)),
        Const::Named(name) => Ok(Const::Named(Name::of(alloc, name.bytes())?)),
    }
}
