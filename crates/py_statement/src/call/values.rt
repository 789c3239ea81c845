//! Expressions within the limit on their height.

ghost use Rattle.py_expression.specs.Shown.{height_limit};
ghost use Rattle.std.specs.Prelude.{◌≡◌, ◌≤◌, IfOk};
ghost use Rattle.py_syntax.specs.ExpressionTrees.{view};
ghost use Rattle.py_expression.specs.Phrase.Gives.{Gives};
ghost use Rattle.py_expression.specs.Boxes.{inside};
ghost use Rattle.py_statement.specs.Call.Kept;
ghost use Rattle.py_statement.specs.Call.Reading;
ghost use Rattle.py_statement.specs.Call.Views.{tall, ahead};

use port_io::{NoMemory, boxed};
use py_expression::phrase::{ReadError, end_of_line};
use py_expression::{expression, primary};
use py_syntax::{Const, Expression, Token};
use std::alloc::Global;

/// The greatest height of an expression.
pub const LIMIT: usize = 64;

/// A tree of this height, from which so many attributes were taken that don't count, and its height without them. Where that is over
/// the limit, another tree, and a height over the limit.
#[tactic(auto, unfolding(crate::specs::Call::Kept::lowered))]
pub fn within(
    alloc: Global,
    tree: Box<Expression>,
    height: usize,
    attributes: usize,
) -> Result<(Box<Expression>, usize), NoMemory>
    requires { attributes ≤ 2 }
    ensures { IfOk result (λ x. tall (inside view) x ≡ Kept.lowered height_limit attributes (view tree.value) height) }
{
    if height <= LIMIT + attributes {
        Ok((tree, height.saturating_sub(attributes)))
    } else {
        let nothing = boxed(alloc, Expression::Constant(Const::Absent))?;
        Ok((nothing, LIMIT + 1))
    }
}

/// The expression at the front with its height, and the tokens after it.
#[tactic(auto, unfolding(crate::specs::Call::Reading::value_of))]
pub fn value(
    alloc: Global,
    tokens: &[Token],
) -> Result<((Box<Expression>, usize), &[Token]), ReadError>
    ensures { Gives (ahead (inside view)) result (Reading.value_of height_limit tokens.now) }
{
    let (found, rest) = expression(alloc, tokens)?;
    Ok((within(alloc, found.tree, found.height, 0)?, rest))
}

/// The expression that these tokens are, with its height.
#[tactic(auto, unfolding(crate::specs::Call::Reading::whole_value_of))]
pub fn whole_value(alloc: Global, tokens: &[Token]) -> Result<(Box<Expression>, usize), ReadError>
    ensures { Gives (tall (inside view)) result (Reading.whole_value_of height_limit tokens.now) }
{
    let (found, rest) = value(alloc, tokens)?;
    end_of_line(rest)?;
    Ok(found)
}

/// The primary that these tokens are, with its height.
#[tactic(auto, unfolding(crate::specs::Call::Reading::whole_primary_of))]
pub fn whole_primary(alloc: Global, tokens: &[Token]) -> Result<(Box<Expression>, usize), ReadError>
    ensures { Gives (tall (inside view)) result (Reading.whole_primary_of height_limit tokens.now) }
{
    let (found, rest) = primary(alloc, tokens)?;
    end_of_line(rest)?;
    Ok(within(alloc, found.tree, found.height, 0)?)
}
