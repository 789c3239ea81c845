//! Clauses of compound statements.

ghost use Rattle.std.specs.Prelude.{◌≡◌, map, IfOk};
ghost use Rattle.py_syntax.specs.StatementTrees.{view_caught, view_header, view_span};
ghost use Rattle.test_meaning.specs.Body.Views.{block_of};
ghost use Rattle.test_functions.specs.Blocks.Kept.{tail_in};
ghost use Rattle.test_meaning.specs.Bodies.{clause_in, span_in};
ghost use Rattle.test_meaning.specs.Rules.File.{value_in};

use crate::blocks::items::{for_item, while_item, with_item};
use crate::blocks::tail::Tail;
use crate::expressions::{Meanings, expression};
use port_io::{Name, NoMemory};
use py_syntax::{Caught, Const, FaultKind, Header, Span};
use std::alloc::Global;
use test_meaning::body::Item;
use test_meaning::factory::copied;

/// The values of constants. Only want of memory is an error.
fn values<M: Meanings>(
    alloc: Global,
    meanings: &M,
    constants: &[Const],
) -> Result<Vec<Const>, NoMemory>
    ensures { IfOk result (λ made. made.items ≡ map (value_in (M.inside meanings.now).file.constants) constants.now) }
{
    let mut values = Vec::new(alloc);
    for constant in constants {
        let value = copied(alloc, meanings.value_of(constant))?;
        values.push(value)?;
    }
    Ok(values)
}

/// What a `for` goes over. Only want of memory is an error.
fn span<M: Meanings>(alloc: Global, meanings: &M, span: &Span) -> Result<Span, NoMemory>
    ensures { IfOk result (λ made. view_span made ≡ span_in (M.inside meanings.now) (view_span span.now)) }
{
    match span {
        Span::Stop(stop) => Ok(Span::Stop(expression(alloc, meanings, stop)?)),
        Span::StartStop(start, stop) => {
            let start = expression(alloc, meanings, start)?;
            Ok(Span::StartStop(start, expression(alloc, meanings, stop)?))
        }
        Span::StartStopStep(start, stop, step) => {
            let start = expression(alloc, meanings, start)?;
            let stop = expression(alloc, meanings, stop)?;
            Ok(Span::StartStopStep(start, stop, expression(alloc, meanings, step)?))
        }
        Span::Constants(constants) => Ok(Span::Constants(values(alloc, meanings, constants)?)),
    }
}

/// What an `except` catches, copied. Only want of memory is an error.
fn caught(alloc: Global, caught: &Caught) -> Result<Caught, NoMemory>
    ensures { IfOk result (λ made. view_caught made ≡ view_caught caught.now) }
{
    match caught {
        Caught::All => Ok(Caught::All),
        Caught::Kind(kind) => Ok(Caught::Kind(*kind)),
        Caught::Kinds(kinds) => Ok(Caught::Kinds(kinds.to_vec(alloc)?)),
        Caught::As(kind, name) => Ok(Caught::As(*kind, Name::of(alloc, name.bytes())?)),
    }
}

/// A clause with its block before what stands behind it. Only want of memory is an error.
pub(crate) fn clause<M: Meanings>(
    alloc: Global,
    meanings: &M,
    header: &Header,
    block: Vec<Item>,
    rest: Tail,
) -> Result<Tail, NoMemory>
    ensures { IfOk result (λ tail. tail_in tail ≡ clause_in (M.inside meanings.now) (view_header header.now) (block_of block.items) (tail_in rest)) }
{
    match header {
        Header::If(condition) => rest.with_if(
            alloc,
            expression(alloc, meanings, condition)?,
            block,
        ),
        Header::Elif(condition) => rest.with_elif(
            alloc,
            expression(alloc, meanings, condition)?,
            block,
        ),
        Header::Else => Ok(rest.with_else(alloc, block)),
        Header::While(condition) => {
            let condition = expression(alloc, meanings, condition)?;
            rest.with_item(alloc, while_item(condition, block))
        }
        Header::For(name, elements) => {
            let name = Name::of(alloc, name.bytes())?;
            let span = span(alloc, meanings, elements)?;
            rest.with_item(alloc, for_item(name, span, block))
        }
        Header::Try => rest.with_try(alloc, block),
        Header::Except(kinds) => rest.with_handler(alloc, caught(alloc, kinds)?, block),
        Header::With(lock) => {
            let lock = expression(alloc, meanings, lock)?;
            rest.with_item(alloc, with_item(lock, block))
        }
    }
}
