//! What is known of an instance before its subtree.

ghost use Rattle.std.specs.Prelude.{◌≡◌, ◌<◌, ◌∷◌, ◌++◌, [], IfOk, length};
ghost use Rattle.v_syntax.specs.SourceTrees.{view_module};
ghost use Rattle.v_flat.specs.Scope.Limits.{most_parts};
ghost use Rattle.v_header.specs.Names.{texts};
ghost use Rattle.v_elab.specs.States.{IsReady};
ghost use Rattle.v_elab.specs.Enters.{Enters};
ghost use Rattle.v_elab.specs.InnerSteps.{IsMade};

use crate::checked::checked;
use crate::inner::Inner;
use crate::level::Level;
use crate::outside::Outside;
use crate::state::State;
use crate::there::module_there;
use crate::waiting::{Entered, Waiting};
use crate::walked::Walked;
use port_io::NoMemory;
use std::alloc::Global;
use v_flat::scope::Broken;
use v_layout::path_below;
use v_syntax::Module;

/// These names and one more. Only want of memory is an error.
fn with_name<'a>(
    alloc: Global,
    names: &[&'a [u8]],
    name: &'a [u8],
) -> Result<Vec<&'a [u8]>, NoMemory>
    ensures { IfOk result (λ all. texts all.items ≡ texts names.now ++ (name.now ∷ [])) }
{
    let mut all = Vec::new(alloc);
    for other in names {
        all.push(*other)?;
    }
    all.push(name)?;
    Ok(all)
}

/// An instance of this module, which is given this from outside. Only want of memory is an error.
fn made<'a>(
    alloc: Global,
    level: &Level<'a>,
    inner: &Inner<'_>,
    module: &'a Module,
    outside: Outside,
    walked: Walked,
) -> Result<Entered<'a>, NoMemory>
    requires { length walked.state.parts.nodes.items < most_parts }
    ensures { IfOk result (IsMade level.now inner.now (view_module «module».now) outside walked) }
{
    let path = path_below(alloc, level.path, inner.name.name.bytes())?;
    let above = with_name(alloc, level.above, module.name.name.bytes())?;
    let Walked { state, instances } = walked;
    let State {
        scope,
        parts,
        driven,
        children,
    } = state;
    let node = parts.nodes.len() as u32;
    Ok(Entered {
        module,
        path,
        above,
        outside,
        parts,
        waiting: Waiting {
            scope,
            driven,
            children,
            instances,
            node,
        },
    })
}

/// An instance among the items of one that stands here, before its subtree is walked (IEEE 1364-2005, clause 12.1.2), or the rule that is
/// broken first: in the name of its module, or else in what it is given. Only want of memory is an error.
pub fn enter<'a>(
    alloc: Global,
    level: &Level<'a>,
    inner: &Inner<'_>,
    walked: Walked,
) -> Result<Result<Entered<'a>, Broken>, NoMemory>
    requires { IsReady walked.state }
    ensures { IfOk result (Enters level.now inner.now walked) }
{
    let instances = walked.state.parts.nodes.len();
    match module_there(
        level.modules,
        level.above,
        level.room,
        instances,
        inner.module,
    ) {
        Ok(module) => match checked(alloc, inner, module, walked)? {
            Ok((outside, walked)) => { Ok(Ok(made(alloc, level, inner, module, outside, walked)?)) }
            Err(fault) => Ok(Err(fault)),
        },
        Err(fault) => Ok(Err(fault)),
    }
}
