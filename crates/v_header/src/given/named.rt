//! Values by the names of open parameters.

ghost use Rattle.std.specs.Prelude.{◌≡◌, ◌&&◌, [], IfOk, is_none, is_some, map, option_map};
ghost use Rattle.name_table.specs.Places.{first_place};
ghost use Rattle.v_syntax.specs.ExpressionTrees.{view};
ghost use Rattle.v_syntax.specs.SourceTrees.{view_connection};
ghost use Rattle.v_flat.specs.Scope.Scope.{means};
ghost use Rattle.v_flat.specs.Design.{named_given, named_value};
ghost use Rattle.v_header.specs.Names.{texts};
ghost use Rattle.v_check.specs.Names.Proper.{AreProper};
ghost use Rattle.v_header.specs.Given.Given.{FindsTheSame};
ghost use Rattle.v_header.specs.Given.Uses.{HasNames, first_uses};

use crate::given::values::with_found;
use crate::parameter::Given;
use name_table::Names;
use port_io::NoMemory;
use std::alloc::Global;
use v_check::constant;
use v_flat::scope::{ElabRule, Found, Scope};
use v_syntax::NamedConnection;

/// A table of names. Only want of memory is an error.
fn table(alloc: Global, names: &[&[u8]]) -> Result<Names, NoMemory>
    ensures { IfOk result (HasNames (texts names.now)) }
{
    let mut table = Names::new(alloc);
    for (place, name) in names.iter().enumerate() {
        table.note(alloc, name, place)?;
    }
    Ok(table)
}

/// Whether a name is a known one that was not seen.
fn is_first_use(known: &Names, seen: &Names, name: &[u8]) -> bool
    ensures { result ≡ (is_some (first_place known.now name.now) && is_none (first_place seen.now name.now)) }
{
    known.find(name).is_some() && seen.find(name).is_none()
}

/// Whether each connection names an open parameter that none before it names. Only want of memory is an error.
fn first_uses(
    alloc: Global,
    connections: &[NamedConnection],
    names: &[&[u8]],
) -> Result<Vec<bool>, NoMemory>
    ensures { IfOk result (λ uses. uses.items ≡ first_uses (texts names.now) [] (map view_connection connections.now)) }
{
    let known = table(alloc, names)?;
    let mut seen = Names::new(alloc);
    let mut uses = Vec::new(alloc);
    for (place, connection) in connections.iter().enumerate() {
        let name = connection.port.name.bytes();
        uses.push(is_first_use(&known, &seen, name))?;
        seen.note(alloc, name, place)?;
    }
    Ok(uses)
}

/// What is found in a connection, before what is found in others; nothing more where it has no value. Only want of memory is an error.
fn before(
    alloc: Global,
    scope: &Scope,
    connection: &NamedConnection,
    rest: Found<Given>,
) -> Result<Found<Given>, NoMemory>
    requires { AreProper (means scope.now) }
    ensures { IfOk result (FindsTheSame (named_value (means scope.now) connection.now.port.name (option_map view connection.now.value) rest)) }
{
    match &connection.value {
        Some(value) => {
            let value = constant(alloc, scope, value)?;
            with_found(alloc, connection.port.name.bytes(), value, rest)
        }
        None => Ok(rest),
    }
}

/// What is found in values that stand with the names of open parameters, from the last one to the first: a name of none, or one that
/// stood there before, breaks BadPort at it. Only want of memory is an error.
pub(crate) fn named(
    alloc: Global,
    scope: &Scope,
    connections: &[NamedConnection],
    names: &[&[u8]],
) -> Result<Found<Given>, NoMemory>
    requires { AreProper (means scope.now) }
    ensures { IfOk result (FindsTheSame (named_given (means scope.now) (texts names.now) [] (map view_connection connections.now))) }
{
    let is_first = first_uses(alloc, connections, names)?;
    let mut found = Found::Sound(Given::none(alloc));
    for at in (0..connections.len()).rev() {
        let connection = &connections[at];
        let more = before(alloc, scope, connection, found)?;
        found = more.wants(is_first[at], ElabRule::BadPort, connection.port.at);
    }
    Ok(found)
}
