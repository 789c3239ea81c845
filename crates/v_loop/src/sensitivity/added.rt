//! What expressions read, behind what is read already.
#![tactic(auto, using(gpi::proofs::Steps::kept))]

ghost use Rattle.std.specs.Prelude.{map};
ghost use Rattle.v_flat.specs.Scope.Scope.{means};
ghost use Rattle.v_syntax.specs.ExpressionTrees.{view, view_selects};
ghost use Rattle.v_flat.specs.Statements.{labels_read, reads, selects_read};
ghost use Rattle.v_check.specs.Names.Proper.{AreProper};
ghost use Rattle.v_loop.specs.Reads.Reads.{Adds};

use crate::reads::{Span, reads, selects_read};
use port_io::NoMemory;
use std::alloc::Global;
use v_flat::scope::Scope;
use v_syntax::{Expression, Selects};

/// Adds what an expression reads. Only want of memory is an error.
pub(crate) fn add_expression(
    alloc: Global,
    spans: &mut Vec<Span>,
    scope: &Scope,
    expression: &Expression,
) -> Result<(), NoMemory>
    requires { AreProper (means scope.now) }
    ensures { Adds spans.old.items spans.new.items (reads (means scope.now) (view expression.now)) result }
{
    let read = reads(alloc, scope, expression)?;
    spans.extend_from_slice(&read)?;
    Ok(())
}

/// Adds what the selects of a target read. Only want of memory is an error.
pub(crate) fn add_selects(
    alloc: Global,
    spans: &mut Vec<Span>,
    scope: &Scope,
    selects: &Selects,
) -> Result<(), NoMemory>
    requires { AreProper (means scope.now) }
    ensures { Adds spans.old.items spans.new.items (selects_read (means scope.now) (view_selects selects.now)) result }
{
    let read = selects_read(alloc, scope, selects)?;
    spans.extend_from_slice(&read)?;
    Ok(())
}

/// Adds what the labels of an item of a case statement read. Only want of memory is an error.
pub(crate) fn add_labels(
    alloc: Global,
    spans: &mut Vec<Span>,
    scope: &Scope,
    labels: &[Expression],
) -> Result<(), NoMemory>
    requires { AreProper (means scope.now) }
    ensures { Adds spans.old.items spans.new.items (labels_read (means scope.now) (map view labels.now)) result }
{
    for label in labels {
        add_expression(alloc, spans, scope, label)?;
    }
    Ok(())
}
