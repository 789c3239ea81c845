//! The walk over an expression.
#![tactic(auto, using(gpi::proofs::Steps::kept))]

ghost use Rattle.std.specs.Prelude.{◌≡◌, IfOk};
ghost use Rattle.v_flat.specs.Scope.Scope.{find, means};
ghost use Rattle.v_syntax.specs.ExpressionTrees.{view, view_select, view_selects, views};
ghost use Rattle.v_flat.specs.Statements.{all_read, name_read, reads, select_read, selects_read};
ghost use Rattle.v_check.specs.Names.Proper.{AreProper};
ghost use Rattle.v_loop.specs.Reads.Reads.{Adds, spans_of};

use crate::reads::Span;
use port_io::NoMemory;
use std::alloc::Global;
use v_check::names::word_count;
use v_flat::scope::{Meaning, Scope};
use v_syntax::{Expression, Select, Selects};

/// Adds what a name reads: the signals of a net, a register or a memory. Only want of memory is an error.
fn add_name(spans: &mut Vec<Span>, scope: &Scope, name: &[u8]) -> Result<(), NoMemory>
    requires { AreProper (means scope.now) }
    ensures { Adds spans.old.items spans.new.items (name_read (find name.now (means scope.now))) result }
{
    if let Some(Meaning::Object(object)) = scope.find(name) {
        let count = match object.words {
            None => 1,
            Some(words) => word_count(words),
        };
        spans.push(Span {
            first: object.first,
            count,
        })?;
    }
    Ok(())
}

/// Adds what an expression reads. Only want of memory is an error.
#[cycle(reading)]
fn add(spans: &mut Vec<Span>, scope: &Scope, expression: &Expression) -> Result<(), NoMemory>
    requires { AreProper (means scope.now) }
    ensures { Adds spans.old.items spans.new.items (reads (means scope.now) (view expression.now)) result }
{
    match expression {
        Expression::Number { .. } => Ok(()),
        Expression::Operand(operand) => {
            add_name(spans, scope, operand.name.bytes())?;
            add_selects(spans, scope, &operand.selects)
        }
        Expression::Bracketed { inner, .. } => add(spans, scope, inner),
        Expression::Unary { operand, .. } => add(spans, scope, operand),
        Expression::Binary { left, right, .. } => {
            add(spans, scope, left)?;
            add(spans, scope, right)
        }
        Expression::Conditional { condition, yes, no } => {
            add(spans, scope, condition)?;
            add(spans, scope, yes)?;
            add(spans, scope, no)
        }
        Expression::Concatenation { parts, .. } => add_all(spans, scope, parts),
        Expression::Replication { parts, .. } => add_all(spans, scope, parts),
    }
}

/// Adds what each of these expressions reads. Only want of memory is an error.
#[cycle(reading)]
fn add_all(spans: &mut Vec<Span>, scope: &Scope, expressions: &[Expression]) -> Result<(), NoMemory>
    requires { AreProper (means scope.now) }
    ensures { Adds spans.old.items spans.new.items (all_read (means scope.now) (views expressions.now)) result }
{
    for expression in expressions {
        add(spans, scope, expression)?;
    }
    Ok(())
}

/// Adds what the selects behind a name read. Only want of memory is an error.
#[cycle(reading)]
fn add_selects(spans: &mut Vec<Span>, scope: &Scope, selects: &Selects) -> Result<(), NoMemory>
    requires { AreProper (means scope.now) }
    ensures { Adds spans.old.items spans.new.items (selects_read (means scope.now) (view_selects selects.now)) result }
{
    match selects {
        Selects::Whole => Ok(()),
        Selects::One(select) => add_select(spans, scope, select),
        Selects::OfWord { word, select, .. } => {
            add(spans, scope, word)?;
            add_select(spans, scope, select)
        }
    }
}

/// Adds what a select reads: its index. The bounds of a part and the width of an indexed part are constants. Only want of memory is an
/// error.
#[cycle(reading)]
fn add_select(spans: &mut Vec<Span>, scope: &Scope, select: &Select) -> Result<(), NoMemory>
    requires { AreProper (means scope.now) }
    ensures { Adds spans.old.items spans.new.items (select_read (means scope.now) (view_select select.now)) result }
{
    match select {
        Select::Bit { index, .. } => add(spans, scope, index),
        Select::Part { .. } => Ok(()),
        Select::IndexedPart { base, .. } => add(spans, scope, base),
    }
}

/// The signals that an expression reads, in the order of the text. Only want of memory is an error.
pub fn reads(alloc: Global, scope: &Scope, expression: &Expression) -> Result<Vec<Span>, NoMemory>
    requires { AreProper (means scope.now) }
    ensures { IfOk result (λ spans. spans_of spans.items ≡ reads (means scope.now) (view expression.now)) }
{
    let mut spans = Vec::new(alloc);
    add(&mut spans, scope, expression)?;
    Ok(spans)
}

/// The signals that the selects of a target read: its indices. Only want of memory is an error.
pub fn selects_read(alloc: Global, scope: &Scope, selects: &Selects) -> Result<Vec<Span>, NoMemory>
    requires { AreProper (means scope.now) }
    ensures { IfOk result (λ spans. spans_of spans.items ≡ selects_read (means scope.now) (view_selects selects.now)) }
{
    let mut spans = Vec::new(alloc);
    add_selects(&mut spans, scope, selects)?;
    Ok(spans)
}
