//! The items that are no instances.

ghost use Rattle.std.specs.Prelude.{◌≡◌, ◌+◌, IfOk, nat_le};
ghost use Rattle.v_syntax.specs.SourceTrees.{view_kind};
ghost use Rattle.v_flat.specs.Scope.Limits.{most_parts};
ghost use Rattle.v_elab.specs.States.{EndsItem, IsReady};
ghost use Rattle.v_elab.specs.ItemsSteps.{IsStep, item_step, leaves_room};

use crate::lists::{in_turn, process_count};
use crate::processes::{always, initial};
use crate::state::State;
use port_io::NoMemory;
use std::alloc::Global;
use v_flat::Timing;
use v_flat::scope::{Broken, ElabRule, Found};
use v_loop::Unrolled;
use v_syntax::{Item, ItemKind};

/// The most processes that a design may have.
const MOST_PROCESSES: usize = 65_536;

/// Whether so many processes and these more are no more than a design may have.
pub(crate) fn is_room(processes: usize, more: usize) -> bool
    ensures { result ≡ nat_le (processes + more) most_parts }
{
    processes.saturating_add(more) <= MOST_PROCESSES
}

/// Whether the processes of an item are no more than a design may have, behind so many.
#[tactic(auto, using(crate::proofs::Counts::nets_counted, crate::proofs::Counts::registers_counted, crate::proofs::Counts::drivers_counted))]
fn has_room(processes: usize, kind: &ItemKind) -> bool
    ensures { result ≡ leaves_room (view_kind kind.now) processes }
{
    match kind {
        ItemKind::Nets { declarators, .. } => is_room(processes, process_count(declarators)),
        ItemKind::Registers { declarators, .. } => is_room(processes, process_count(declarators)),
        ItemKind::ContinuousAssignments(list) => is_room(processes, process_count(list)),
        ItemKind::Always { .. } => is_room(processes, 1),
        ItemKind::Initial(_) => is_room(processes, 1),
        _ => true,
    }
}

/// What is found in an item of a module of this timing, however many processes there are. Only want of memory is an error.
#[tactic(auto, using(crate::proofs::Turns::no_step, crate::proofs::Turns::turns_found))]
fn found_in(
    alloc: Global,
    timing: Timing,
    unrolled: &mut Unrolled,
    kind: &ItemKind,
    state: State,
) -> Result<Found<State>, NoMemory>
    requires { IsReady state }
    ensures { IfOk result (IsStep (item_step timing (view_kind kind.now)) state) }
{
    match kind {
        ItemKind::Nets { declarators, .. } => in_turn(alloc, declarators, state),
        ItemKind::Registers { declarators, .. } => in_turn(alloc, declarators, state),
        ItemKind::ContinuousAssignments(list) => in_turn(alloc, list, state),
        ItemKind::Always { events, statement } => always(
            alloc, timing, unrolled, events, statement, state,
        ),
        ItemKind::Initial(statement) => initial(alloc, timing, unrolled, statement, state),
        _ => Ok(Found::Sound(state)),
    }
}

/// The instance behind an item of a module of this timing, or the rule that is broken first in it. TooMany is broken at the item's first token
/// where its processes are more than a design may have. An instance leaves all as it is, and so does an item that gives no process. Statements of procedures count in
/// `unrolled`. Only want of memory is an error.
#[tactic(auto, using(crate::proofs::Ends::item_ends))]
pub fn item(
    alloc: Global,
    timing: Timing,
    unrolled: &mut Unrolled,
    item: &Item,
    state: State,
) -> Result<Result<State, Broken>, NoMemory>
    requires { IsReady state }
    ensures { IfOk result (EndsItem timing item.now.at (view_kind item.now.kind) state) }
{
    let has_room = has_room(state.parts.processes.len(), &item.kind);
    let found = found_in(alloc, timing, unrolled, &item.kind, state)?;
    Ok(found.wants(has_room, ElabRule::TooMany, item.at).ended())
}
