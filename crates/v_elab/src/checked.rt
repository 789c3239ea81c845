//! What an instance is given from outside, checked.

ghost use Rattle.std.specs.Prelude.{IfOk};
ghost use Rattle.v_syntax.specs.SourceTrees.{view_module};
ghost use Rattle.v_flat.specs.Scope.Scope.{means};
ghost use Rattle.v_check.specs.Names.Proper.{AreProper};
ghost use Rattle.v_elab.specs.States.{IsReady};
ghost use Rattle.v_elab.specs.InnerSteps.{AreBothFound, Checks, beside};

use crate::connect::{Joints, joint_count, joints};
use crate::inner::Inner;
use crate::items::is_room;
use crate::outside::Outside;
use crate::walked::Walked;
use port_io::NoMemory;
use std::alloc::Global;
use v_flat::scope::{Broken, ElabRule, Found, Scope};
use v_header::given::given;
use v_header::parameter::Given;
use v_header::{Ports, open_parameters, parameters_of};
use v_process::drive::DrivenDigits;
use v_syntax::Module;

/// The values of parameters and what ports are joined to (IEEE 1364-2005, clauses 12.2.2 and 12.3), or what is broken first in both, and which
/// digits of nets are driven then. Only want of memory is an error.
fn connected(
    alloc: Global,
    scope: &Scope,
    inner: &Inner<'_>,
    module: &Module,
    ports: &Ports,
    driven: &mut DrivenDigits,
) -> Result<Found<(Given, Joints)>, NoMemory>
    requires { AreProper (means scope.now) }
    ensures { IfOk result (λ found. AreBothFound (means scope.now) inner.now (view_module «module».now) ports.now driven.old found driven.new) }
{
    let declared = parameters_of(alloc, module)?;
    let names = open_parameters(alloc, &declared)?;
    let given = given(alloc, scope, inner.parameters, &names)?;
    let joints = joints(alloc, scope, inner.ports, ports, driven)?;
    Ok(given.both(joints))
}

/// What an instance of this module is given from outside, or the rule that is broken first in the item: besides those in its connections TooMany
/// at its first token, where their assignments with the processes so far are more than a design may have, and DuplicateName at its name, where
/// something has that name. The instance around it is as it was, but for the digits of nets that are driven then. Only want of memory is an
/// error.
fn given_to(
    alloc: Global,
    inner: &Inner<'_>,
    module: &Module,
    walked: &mut Walked,
) -> Result<Result<Outside, Broken>, NoMemory>
    requires { IsReady walked.old.state }
    ensures { IfOk result (λ found. Checks inner.now (view_module «module».now) walked.old (beside walked.new found)) }
{
    let ports = Ports::of(alloc, module)?;
    let count = joint_count(alloc, inner.ports, &ports)?;
    let has_room = is_room(walked.state.parts.processes.len(), count);
    let is_fresh = walked.is_fresh(inner.name.name.bytes());
    let found = connected(
        alloc,
        &walked.state.scope,
        inner,
        module,
        &ports,
        &mut walked.state.driven,
    )?;
    let named = found.wants(is_fresh, ElabRule::DuplicateName, inner.name.at);
    match named.wants(has_room, ElabRule::TooMany, inner.at).ended() {
        Ok((given, joints)) => Ok(Ok(Outside { given, joints })),
        Err(fault) => Ok(Err(fault)),
    }
}

/// The same, with the instance around it then. Only want of memory is an error.
pub(crate) fn checked(
    alloc: Global,
    inner: &Inner<'_>,
    module: &Module,
    mut walked: Walked,
) -> Result<Result<(Outside, Walked), Broken>, NoMemory>
    requires { IsReady walked.state }
    ensures { IfOk result (Checks inner.now (view_module «module».now) walked) }
{
    match given_to(alloc, inner, module, &mut walked)? {
        Ok(outside) => Ok(Ok((outside, walked))),
        Err(fault) => Ok(Err(fault)),
    }
}
