//! All values that an instance gives.

ghost use Rattle.std.specs.Prelude.{IfOk};
ghost use Rattle.v_flat.specs.Scope.Scope.{means};
ghost use Rattle.v_header.specs.Names.{texts};
ghost use Rattle.v_check.specs.Names.Proper.{AreProper};
ghost use Rattle.v_header.specs.Given.Given.{AreGiven};

use crate::given::named::named;
use crate::given::ordered::ordered;
use crate::parameter::Given;
use port_io::NoMemory;
use std::alloc::Global;
use v_flat::scope::{Found, Scope};
use v_syntax::Connections;

/// The values that an instance gives to the parameters of its module (IEEE 1364-2005, clause 12.2.2), or what is broken first in them:
/// none where nothing stands behind a `#`. `scope` is that in which the instance stands, and `names` are those of the parameters that
/// may be given one, in their order.
///
/// Values in order are those of the open parameters in theirs, and one too many breaks BadPort at its first token; behind it nothing is
/// checked. With names, one that is no open parameter's, or that stood there before, breaks BadPort at it, and its value is checked too.
/// Each value is a constant, which breaks what constants break. Only want of memory is an error.
pub fn given(
    alloc: Global,
    scope: &Scope,
    values: Option<&Connections>,
    names: &[&[u8]],
) -> Result<Found<Given>, NoMemory>
    requires { AreProper (means scope.now) }
    ensures { IfOk result (AreGiven (means scope.now) values.entry (texts names.now)) }
{
    match values {
        None => Ok(Found::Sound(Given::none(alloc))),
        Some(Connections::Ordered(values)) => ordered(alloc, scope, values, names),
        Some(Connections::Named(connections)) => named(alloc, scope, connections, names),
    }
}
