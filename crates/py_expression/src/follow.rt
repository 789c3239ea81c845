//! What may follow a primary: attributes, subscripts and calls of methods.

ghost use Rattle.py_expression.specs.Shown.{height_limit};
ghost use Rattle.std.specs.Prelude.{◌≡◌, ◌∷◌};
ghost use Rattle.py_expression.specs.Phrase.Gives.{Gives};
ghost use Rattle.py_expression.specs.Kept.{measured};
ghost use Rattle.py_expression.specs.Spots.{stack_in, spot_in};
ghost use Rattle.py_expression.specs.Reading;

use crate::frame::{Frame, Opened, Point, Spot, behind_primary, open};
use crate::measured::Measured;
use crate::phrase::{Mark, ReadError, after};
use crate::tokens::{after_empty_call, attribute_at};
use port_io::Name;
use py_syntax::{Bracket, Method, Token};
use std::alloc::Global;

/// What stands behind `.name`: a call of the method, or nothing that belongs to it.
#[tactic(auto, unfolding(crate::specs::Reading::attribute_of))]
fn attribute<'a>(
    alloc: Global,
    stack: Vec<Frame>,
    least: usize,
    base: Measured,
    name: &Name,
    tokens: &'a [Token],
) -> Result<Spot<'a>, ReadError>
    ensures { Gives spot_in result (Some (Reading.attribute_of height_limit (stack_in stack.items) least (measured base) name.now tokens.now)) }
{
    match (Method::of(name.bytes()), after_empty_call(tokens)) {
        (Some(method), Some(rest)) => {
            let call = Measured::method_call(alloc, base, method)?;
            Ok(behind_primary(stack, least, call, rest))
        }
        _ => {
            let attribute = Measured::attribute(alloc, base, Name::of(alloc, name.bytes())?)?;
            Ok(behind_primary(stack, least, attribute, tokens))
        }
    }
}

/// What follows a primary.
#[tactic(auto, unfolding(crate::specs::Reading::follow_of))]
pub fn follow<'a>(
    alloc: Global,
    stack: Vec<Frame>,
    least: usize,
    base: Measured,
    tokens: &'a [Token],
) -> Result<Spot<'a>, ReadError>
    ensures { Gives spot_in result (Some (Reading.follow_of height_limit (stack_in stack.items) least (measured base) tokens.now)) }
{
    if let Some((name, rest)) = attribute_at(tokens) {
        return attribute(alloc, stack, least, base, name, rest);
    }
    match after(Mark::Open(Bracket::Square), tokens) {
        Some(rest) => {
            let opened = Opened::Subscript(base);
            Ok(open(stack, Frame { opened, least }, 1, rest)?)
        }
        None => Ok(Spot {
            stack,
            least,
            point: Point::Operand(base, 12),
            rest: tokens,
        }),
    }
}
