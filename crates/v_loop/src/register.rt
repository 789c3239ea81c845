//! The register that a loop counts in.

ghost use Rattle.std.specs.Prelude.{◌≡◌, Some};
ghost use Rattle.v_flat.specs.declared.scope.meaning.Meaning.TheVariants.{Object};
ghost use Rattle.v_flat.specs.Scope.Found.{ForValue, ended};
ghost use Rattle.v_flat.specs.Scope.Scope.{find, means};
ghost use Rattle.v_flat.specs.Statements.{counter, counter_in, same_counter};

use v_flat::scope::{Broken, DataKind, DataObject, ElabRule, Found, Meaning, Scope};
use v_syntax::{Identifier, TokenNumber};

/// A register that is no memory, or else BadRange is broken at this token by a memory, and BadTarget by a net.
fn register(place: TokenNumber, object: DataObject) -> Found<DataObject>
    ensures { result ≡ counter_in place object object.words object.kind }
{
    match object.words {
        Some(_) => Found::broken(ElabRule::BadRange, place),
        None => match object.kind {
            DataKind::Register => Found::Sound(object),
            DataKind::Net | DataKind::Input => Found::broken(ElabRule::BadTarget, place),
        },
    }
}

/// The register that a loop counts in (IEEE 1364-2005, clause 9.6). At the name UnknownName is broken where it isn't declared, BadRange
/// where it is a memory, and BadTarget where it is a net or a constant.
pub fn counter(scope: &Scope, name: &Identifier) -> Found<DataObject>
    ensures is { result ≡ counter name.now.at (find name.now.name (means scope.now)) }
    ensures object { ForValue (λ object. find name.now.name (means scope.now) ≡ Some (Object object)) result }
{
    match scope.find(name.name.bytes()) {
        Some(Meaning::Object(object)) => register(name.at, *object),
        Some(Meaning::Constant(_, _)) => Found::broken(ElabRule::BadTarget, name.at),
        Some(Meaning::Later) | None => Found::broken(ElabRule::UnknownName, name.at),
    }
}

/// Both assignments of a header are to one name, or else BadTarget is broken at the second one.
pub(crate) fn same_counter(
    scope: &Scope,
    first: &Identifier,
    second: &Identifier,
) -> Result<(), Broken>
    ensures { result ≡ ended (same_counter first.now second.now (means scope.now)) }
{
    if first.name.bytes() == second.name.bytes() {
        return Ok(());
    }
    let fault = Broken {
        rule: ElabRule::BadTarget,
        place: second.at,
    };
    match counter(scope, second).lost(fault).ended() {
        Ok(_object) => Ok(()),
        Err(fault) => Err(fault),
    }
}
