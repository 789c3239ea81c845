//! When the updates of an assignment come.

ghost use Rattle.std.specs.Prelude.{◌≡◌};
ghost use Rattle.v_flat.specs.Statements.{delay_checked};
ghost use Rattle.v_process.specs.Act.Statements.{TakesAt};

use gpi::Act;
use v_flat::Timing;
use v_flat::scope::{ElabRule, Found};
use v_syntax::AssignmentKind;

/// When the updates of an assignment come.
#[derive(Clone, Copy)]
pub enum Moment {
    /// At once (IEEE 1364-2005, clause 9.2.1).
    AtOnce,
    /// So many steps later (clause 9.2.2), 0 where there is no delay.
    Later(u64),
}

/// When the updates of an assignment come in a module of this timing (IEEE 1364-2005, clauses 9.2 and 9.7.1). It has no meaning where the
/// delay breaks a rule.
#[tactic(auto, using(crate::proofs::ActLemmas::Assigning::at_once_takes, crate::proofs::ActLemmas::Assigning::later_takes, crate::proofs::ActLemmas::Assigning::delay_takes))]
pub(crate) fn moment_of(timing: Timing, kind: AssignmentKind) -> Moment
    ensures { TakesAt timing kind result }
{
    match kind {
        AssignmentKind::Blocking => Moment::AtOnce,
        AssignmentKind::Nonblocking => Moment::Later(0),
        AssignmentKind::Delayed { at: _at, delay } => {
            Moment::Later(timing.steps(delay).unwrap_or(0))
        }
    }
}

/// What was found in an assignment, with its delay: BadDelay is broken at the delay's number where that has no steps.
#[tactic(auto, using(crate::proofs::ActLemmas::Assigning::not_asked, crate::proofs::ActLemmas::Assigning::not_asked_later, crate::proofs::ActLemmas::Assigning::asked))]
pub(crate) fn delayed(timing: Timing, kind: AssignmentKind, found: Found<Act>) -> Found<Act>
    ensures { result ≡ delay_checked timing kind found }
{
    match kind {
        AssignmentKind::Delayed { at, delay } => {
            found.wants(timing.steps(delay).is_some(), ElabRule::BadDelay, at)
        }
        AssignmentKind::Blocking => found,
        AssignmentKind::Nonblocking => found,
    }
}
