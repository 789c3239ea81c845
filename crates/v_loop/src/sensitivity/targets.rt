//! What the targets of assignments read.
#![tactic(auto, using(gpi::proofs::Steps::kept))]

ghost use Rattle.v_flat.specs.Scope.Scope.{means};
ghost use Rattle.v_syntax.specs.ExpressionTrees.{view_target, view_targets};
ghost use Rattle.v_flat.specs.Statements.{target_read, targets_read};
ghost use Rattle.v_check.specs.Names.Proper.{AreProper};
ghost use Rattle.v_loop.specs.Reads.Reads.{Adds};

use crate::reads::Span;
use crate::sensitivity::added::add_selects;
use port_io::NoMemory;
use std::alloc::Global;
use v_flat::scope::Scope;
use v_syntax::Target;

/// Adds what a target reads: its indices. Only want of memory is an error.
#[cycle(targets)]
pub(crate) fn add_target(
    alloc: Global,
    spans: &mut Vec<Span>,
    scope: &Scope,
    target: &Target,
) -> Result<(), NoMemory>
    requires { AreProper (means scope.now) }
    ensures { Adds spans.old.items spans.new.items (target_read (means scope.now) (view_target target.now)) result }
{
    match target {
        Target::Operand(operand) => add_selects(alloc, spans, scope, &operand.selects),
        Target::Concatenation { parts, .. } => add_targets(alloc, spans, scope, parts),
    }
}

/// Adds what each of these targets reads. Only want of memory is an error.
#[cycle(targets)]
fn add_targets(
    alloc: Global,
    spans: &mut Vec<Span>,
    scope: &Scope,
    targets: &[Target],
) -> Result<(), NoMemory>
    requires { AreProper (means scope.now) }
    ensures { Adds spans.old.items spans.new.items (targets_read (means scope.now) (view_targets targets.now)) result }
{
    for target in targets {
        add_target(alloc, spans, scope, target)?;
    }
    Ok(())
}
