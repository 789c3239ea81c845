//! What a loop leaves behind.

ghost use Rattle.std.specs.Prelude.{◌≡◌, length, IfOk, None};
ghost use Rattle.gpi.specs.Terms.{IsWidth};
ghost use Rattle.v_flat.specs.Scope.Scope.{width_of};
ghost use Rattle.v_process.specs.Turns.{AssignsLast, EndsTurns};

use crate::act::BlockParts;
use four_value::Bits;
use gpi::{Act, Object, SigId, Target, Term};
use port_io::NoMemory;
use std::alloc::Global;
use v_check::names::width;
use v_flat::scope::{DataObject, Found};

/// What a loop leaves behind: its register has the last value, at once (IEEE 1364-2005, clause 9.6).
fn last_assignment(object: DataObject, value: Bits) -> Act
    requires proper { IsWidth (width_of object.bounds) }
    requires width { length value ≡ width_of object.bounds }
    ensures { AssignsLast object value result }
{
    let register = Object::Signal(SigId(object.first), width(object.bounds));
    Act::Blocking(Target::Whole(register), Term::Const(value))
}

/// What stands behind the last turn of a loop. Only want of memory is an error.
pub(crate) fn behind_turns(
    alloc: Global,
    object: DataObject,
    value: Bits,
) -> Result<Found<BlockParts>, NoMemory>
    requires plain { object.words ≡ None }
    requires proper { IsWidth (width_of object.bounds) }
    requires width { length value ≡ width_of object.bounds }
    ensures { IfOk result (EndsTurns object value) }
{
    let last = last_assignment(object, value);
    BlockParts::before(Found::Sound(last), BlockParts::none(alloc))
}
