//! Calls of methods.

ghost use Rattle.py_expression.specs.Shown.{height_limit};
ghost use Rattle.std.specs.Prelude.{◌≡◌, Some, None};
ghost use Rattle.py_expression.specs.Phrase.Gives.{Gives};
ghost use Rattle.py_expression.specs.Kept.{measured};
ghost use Rattle.py_statement.specs.Call.Reading;
ghost use Rattle.py_statement.specs.Call.Views.{method_ahead};

use crate::call::values::within;
use port_io::Name;
use py_expression::phrase::{Mark, ReadError, after};
use py_expression::{Measured, primary, split};
use py_syntax::{Bracket, Expression, Token};
use std::alloc::Global;

/// A method's object with its height, its name, and the tokens behind the bracket.
pub type Method<'a> = ((Box<Expression>, usize), (Name, &'a [Token]));

/// The method of which the callee is the attribute, if a bracket follows.
fn method_from<'a>(
    alloc: Global,
    callee: Measured,
    tokens: &'a [Token],
) -> Result<Method<'a>, ReadError>
    ensures { Gives method_ahead result (Reading.method_from height_limit (measured callee, tokens.now)) }
{
    let height = callee.height;
    let (Some((object, name)), Some(rest)) = (
        split(Box::into_inner(callee.tree)),
        after(Mark::Open(Bracket::Round), tokens),
    ) else {
        return Err(ReadError::Wrong);
    };
    Ok((within(alloc, object, height, 1)?, (name, rest)))
}

/// The method that is called at the front.
#[tactic(auto, unfolding(crate::specs::Call::Reading::method_at))]
pub fn method_at(alloc: Global, tokens: &[Token]) -> Result<Method<'_>, ReadError>
    ensures { Gives method_ahead result (Reading.method_at height_limit tokens.now) }
{
    let (callee, rest) = primary(alloc, tokens)?;
    method_from(alloc, callee, rest)
}
