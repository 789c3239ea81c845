//! What a loop is without its body: its register and its turns.

ghost use Rattle.std.specs.Prelude.{◌≡◌, IfOk, None, Some};
ghost use Rattle.v_flat.specs.declared.scope.meaning.Meaning.TheVariants.{Object};
ghost use Rattle.v_flat.specs.Scope.Found.{ended};
ghost use Rattle.v_flat.specs.Scope.Scope.{find, means, width_of};
ghost use Rattle.v_syntax.specs.StatementTrees.{view_header};
ghost use Rattle.v_flat.specs.Statements.{counter, turns};
ghost use Rattle.v_check.specs.Names.Proper.{AreProper};
ghost use Rattle.v_loop.specs.Turns.{HaveWidth};

use port_io::NoMemory;
use std::alloc::Global;
use v_flat::scope::{Broken, DataObject, Scope};
use v_loop::{LoopTurns, Unrolled, counter};
use v_syntax::{ForHeader, Identifier, TokenNumber};

/// The register that a loop counts in, or the rule that is broken at its name (IEEE 1364-2005, clause 9.6).
pub(crate) fn register(scope: &Scope, name: &Identifier) -> Result<DataObject, Broken>
    ensures is { result ≡ ended (counter name.now.at (find name.now.name (means scope.now))) }
    ensures object { IfOk result (λ object. find name.now.name (means scope.now) ≡ Some (Object object)) }
    ensures plain { IfOk result (λ object. object.words ≡ None) }
{
    counter(scope, name).ended()
}

/// The turns of a loop that counts in this register, which count, or the rule that is broken first. Only want of memory is an error.
/// Whatever the answer, each name means what it meant.
pub(crate) fn turns(
    alloc: Global,
    scope: &mut Scope,
    unrolled: &mut Unrolled,
    place: TokenNumber,
    header: &ForHeader,
    object: DataObject,
) -> Result<Result<LoopTurns, Broken>, NoMemory>
    requires proper { AreProper (means scope.old) }
    requires counter { find header.now.initial.name.name (means scope.old) ≡ Some (Object object) }
    ensures value { IfOk result (λ answer. answer ≡ ended (turns place (view_header header.now) (means scope.old) object)) }
    ensures widths { IfOk result (λ answer. IfOk answer (HaveWidth (width_of object.bounds))) }
    ensures scope { means scope.new ≡ means scope.old }
{
    let found = v_loop::turns(alloc, scope, unrolled, place, header, object)?;
    Ok(found.ended())
}
