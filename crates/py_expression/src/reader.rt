//! Reading expressions.

ghost use Rattle.py_expression.specs.Shown.{height_limit};
ghost use Rattle.std.specs.Prelude.{◌≡◌, ◌+◌, ◌*◌, ◌≤◌, List, length, IfOk};
ghost use Rattle.py_syntax.specs.ExpressionTrees.{Tree};
ghost use Rattle.py_syntax.specs.ExpressionSpells.{Spells, level};
ghost use Rattle.py_syntax.specs.declared.token.Token.{Token};
ghost use Rattle.py_expression.specs.Ends.{IsRead, Stops, IsFound};
ghost use Rattle.py_expression.specs.Phrase.Gives.{Gives};
ghost use Rattle.py_expression.specs.Kept.{measured};
ghost use Rattle.py_expression.specs.Spots.{spot_in, step_in};
ghost use Rattle.py_expression.specs.Reading;

use crate::begin::wanted;
use crate::close::{behind_operand, in_format};
use crate::follow::follow;
use crate::frame::{Point, Spot, Step};
use crate::measured::Measured;
use crate::phrase::ReadError;
use py_syntax::Token;
use std::alloc::Global;

/// One step of reading.
#[tactic(auto, unfolding(crate::specs::Reading::step_of))]
fn step<'a>(alloc: Global, spot: Spot<'a>) -> Result<Step<'a>, ReadError>
    ensures { Gives step_in result (Reading.step_of height_limit (spot_in spot.entry)) }
{
    let Spot {
        stack,
        least,
        point,
        rest,
    } = spot;
    match point {
        Point::Wanted => Ok(Step::Going(wanted(alloc, stack, least, rest)?)),
        Point::Primary(base) => Ok(Step::Going(follow(alloc, stack, least, base, rest)?)),
        Point::Operand(operand, level) => {
            behind_operand(alloc, stack, least, operand, level, rest)
        }
        Point::Parts(parts) => Ok(Step::Going(in_format(alloc, stack, least, parts, rest)?)),
    }
}

/// Where reading starts.
#[tactic(auto, using(crate::proofs::Stacks::stack_none))]
fn start<'a>(alloc: Global, least: usize, tokens: &'a [Token]) -> Spot<'a>
    ensures { spot_in result ≡ Reading.start least tokens.now }
{
    Spot {
        stack: Vec::new(alloc),
        least,
        point: Point::Wanted,
        rest: tokens,
    }
}

/// The expression at the front that binds so tightly at least.
fn read<'a>(
    alloc: Global,
    least: usize,
    tokens: &'a [Token],
) -> Result<(Measured, &'a [Token]), ReadError>
    ensures { Gives (λ x. (measured x.0, x.1.now)) result (Reading.read_of height_limit least tokens.now) }
{
    let mut spot = start(alloc, least, tokens);
    for _ in 0..2 * tokens.len() + 1 {
        match step(alloc, spot)? {
            Step::Going(next) => spot = next,
            Step::Done(expression, rest) => return Ok((expression, rest)),
        }
    }
    Err(ReadError::Wrong)
}

/// The expression at the front of the tokens, and the tokens after it: the tree that spells what stands before them, where nothing
/// follows that goes on with it. Wrong where none stands there, whatever its height.
pub fn expression(alloc: Global, tokens: &[Token]) -> Result<(Measured, &[Token]), ReadError>
    ensures gives { Gives (λ x. (measured x.0, x.1.now)) result (Reading.expression_of height_limit tokens.now) }
    ensures found { IfOk result (λ x. IsRead height_limit 1 tokens.now (measured x.0) x.1.now) }
    ensures only { (e : Tree) (rest : List Token) → Spells e tokens.now rest → Stops 1 e rest → IsFound height_limit e rest result }
{
    read(alloc, 1, tokens)
}

/// The primary at the front of the tokens (the language reference, 6.3), and the tokens after it, in the same way. An operator may
/// follow it.
pub fn primary(alloc: Global, tokens: &[Token]) -> Result<(Measured, &[Token]), ReadError>
    ensures gives { Gives (λ x. (measured x.0, x.1.now)) result (Reading.primary_of height_limit tokens.now) }
    ensures found { IfOk result (λ x. IsRead height_limit 12 tokens.now (measured x.0) x.1.now) }
    ensures only { (e : Tree) (rest : List Token) → Spells e tokens.now rest → 12 ≤ level e → Stops 12 e rest → IsFound height_limit e rest result }
{
    read(alloc, 12, tokens)
}
