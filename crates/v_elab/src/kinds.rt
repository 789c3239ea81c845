//! Items that are instances, and those that are none.

ghost use Rattle.std.specs.Prelude.{IfOk};
ghost use Rattle.v_syntax.specs.SourceTrees.{view_item};
ghost use Rattle.v_elab.specs.States.{IsReady};
ghost use Rattle.v_elab.specs.WalkSteps.{IsInner, IsPlain, Passes, over_item};

use crate::inner::Inner;
use crate::level::Level;
use crate::walked::Walked;
use port_io::NoMemory;
use std::alloc::Global;
use v_flat::scope::Broken;
use v_loop::Unrolled;
use v_syntax::{Item, ItemKind};

/// The instance that an item is, if it is one.
pub(crate) fn as_inner(item: &Item) -> Option<Inner<'_>>
    ensures { IsInner (view_item item.now) result }
{
    match &item.kind {
        ItemKind::Instance {
            module,
            parameters,
            name,
            ports,
        } => Some(Inner {
            at: item.at,
            module,
            parameters: parameters.as_ref(),
            name,
            ports: ports.as_ref(),
        }),
        _ => None,
    }
}

/// An instance behind an item that is no instance, or the rule that is broken first in it. Only want of memory is an error.
pub(crate) fn plain(
    alloc: Global,
    level: &Level<'_>,
    unrolled: &mut Unrolled,
    item: &Item,
    walked: Walked,
) -> Result<Result<Walked, Broken>, NoMemory>
    requires ready { IsReady walked.state }
    requires plain { IsInner (view_item item.now) None }
    ensures { IfOk result (Passes level.now (over_item level.now (view_item item.now)) walked) }
{
    let Walked { state, instances } = walked;
    match crate::items::item(alloc, level.timing, unrolled, item, state)? {
        Ok(state) => Ok(Ok(Walked { state, instances })),
        Err(fault) => Ok(Err(fault)),
    }
}
