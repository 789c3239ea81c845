//! The walk over an instance, its items, and the instances among these.

ghost use Rattle.std.specs.Prelude.{◌≤◌, IfOk, length, map};
ghost use Rattle.v_syntax.specs.SourceTrees.{view_item, view_module};
ghost use Rattle.v_flat.specs.Scope.Limits.{most_parts};
ghost use Rattle.v_elab.specs.States.{IsReady};
ghost use Rattle.v_elab.specs.WalkSteps.{Passes, over_item, over_items};
ghost use Rattle.v_elab.specs.Walks.{Walks};

use crate::beginning::begin;
use crate::closed::closed;
use crate::entering::enter;
use crate::kinds::{as_inner, plain};
use crate::level::Level;
use crate::outside::Outside;
use crate::there::timing_in;
use crate::waiting::Entered;
use crate::walked::Walked;
use port_io::NoMemory;
use std::alloc::Global;
use v_flat::scope::Broken;
use v_layout::build::Parts;
use v_loop::Unrolled;
use v_syntax::{Item, Module};

/// What is built of the design behind an instance of this module that stands here and is given this from outside, with all that stands below it
/// (IEEE 1364-2005, clause 12.1), where `parts` are built before; or the rule that is broken first in it, in the order of the text: in an instance
/// among its items before the items behind that one. Statements of procedures count in `unrolled`. Only want of memory is an error.
#[cycle(instances)]
pub fn instance(
    alloc: Global,
    level: &Level<'_>,
    unrolled: &mut Unrolled,
    module: &Module,
    outside: Outside,
    parts: Parts,
) -> Result<Result<Parts, Broken>, NoMemory>
    requires { length parts.signals ≤ most_parts }
    ensures { IfOk result (Walks level.now (view_module «module».now) outside parts) }
{
    let node = parts.nodes.len();
    match begin(alloc, module, level.path, outside, parts)? {
        Ok(state) => match items(
            alloc,
            level,
            unrolled,
            &module.items,
            Walked::of(alloc, state),
        )? {
            Ok(walked) => Ok(Ok(closed(alloc, level.path, node, walked.state)?)),
            Err(fault) => Ok(Err(fault)),
        },
        Err(fault) => Ok(Err(fault)),
    }
}

/// An instance behind some items, or the rule that is broken first in them. Only want of memory is an error.
#[cycle(instances)]
fn items(
    alloc: Global,
    level: &Level<'_>,
    unrolled: &mut Unrolled,
    items: &[Item],
    walked: Walked,
) -> Result<Result<Walked, Broken>, NoMemory>
    requires { IsReady walked.state }
    ensures { IfOk result (Passes level.now (over_items level.now (map view_item items.now)) walked) }
{
    let mut walked = walked;
    for item in items {
        match one_item(alloc, level, unrolled, item, walked)? {
            Ok(more) => walked = more,
            Err(fault) => return Ok(Err(fault)),
        }
    }
    Ok(Ok(walked))
}

/// An instance behind one of its items, or the rule that is broken first in it. Only want of memory is an error.
#[cycle(instances)]
fn one_item(
    alloc: Global,
    level: &Level<'_>,
    unrolled: &mut Unrolled,
    item: &Item,
    walked: Walked,
) -> Result<Result<Walked, Broken>, NoMemory>
    requires { IsReady walked.state }
    ensures { IfOk result (Passes level.now (over_item level.now (view_item item.now)) walked) }
{
    match as_inner(item) {
        Some(inner) => match enter(alloc, level, &inner, walked)? {
            Ok(entered) => {
                let Entered {
                    module,
                    path,
                    above,
                    outside,
                    parts,
                    waiting,
                } = entered;
                let timing = timing_in(level.modules, module);
                let below = Level {
                    modules: level.modules,
                    above: &above,
                    room: level.room - 1,
                    path: &path,
                    timing,
                };
                match instance(alloc, &below, unrolled, module, outside, parts)? {
                    Ok(parts) => Ok(Ok(waiting.leave(alloc, inner.name.name.bytes(), parts)?)),
                    Err(fault) => Ok(Err(fault)),
                }
            }
            Err(fault) => Ok(Err(fault)),
        },
        None => plain(alloc, level, unrolled, item, walked),
    }
}
