//! An expression or a target at the front of some tokens.

ghost use Rattle.std.specs.Prelude.{◌≡◌, ◌+◌, ◌≤◌, ◌<◌, ℕ, List, [], length, IfOk, IfErr};
ghost use Rattle.v_syntax.specs.declared.token.Token.{Token};
ghost use Rattle.v_syntax.specs.ExpressionTrees.{Tree, TargetTree, view, view_target, height, target_height};
ghost use Rattle.v_syntax.specs.ExpressionSpans.{Spans, TargetSpans};
ghost use Rattle.v_syntax.specs.ExpressionFronts.{Begins, TargetBegins};
ghost use Rattle.v_expression.specs.Phrase.Stops.{Gives};
ghost use Rattle.v_expression.specs.Reading.{expression_of, target_of};
ghost use Rattle.v_expression.specs.Follows.{follow};
ghost use Rattle.v_expression.specs.Phrase.Refusals.{IsRefusal, IsRead};

use crate::operators::expression_at;
use crate::phrase::{Element, ReadError};
use crate::targets::target_at;
use std::alloc::Global;
use v_syntax::{Expression, Target, Token};

/// Reads an expression (IEEE 1364-2005, annex A.8.3) at the front of the tokens, which are the last of a text of `total`
/// tokens. Its height is at most `room + 1`. Also gives the tokens behind it.
pub fn expression(
    alloc: Global,
    total: usize,
    room: usize,
    tokens: &[Token],
) -> Result<(Box<Expression>, &[Token]), ReadError>
    requires { room < 1000 }
    ensures gives { Gives (λ x. (view x.0.value, x.1.now)) result (expression_of total room tokens.now) }
    // What is read is an expression that spells the tokens up to those that are given, within the height.
    ensures found { IfOk result (λ x. Spans total (view x.0.value) tokens.now x.1.now × (height (view x.0.value) ≤ room + 1)) }
    // An expression within the height that nothing goes on with is read, unless memory runs out.
    ensures only { (e : Tree) (rest : List Token) → Spans total e tokens.now rest → height e ≤ room + 1
        → follow rest ≡ 0 → IsRead (λ x. (view x.0.value ≡ e) × (x.1.now ≡ rest)) result }
    // A refusal is at the first token that no partial expression within the height spells.
    ensures refused { IfErr result (λ e. IsRefusal (λ n rest. Begins total n 1 tokens.now rest) (room + 1) e) }
{
    read_expression(alloc, total, room, tokens)
}

/// The phrase [`expression`].
pub enum ExpressionPhrase {}

impl Element for ExpressionPhrase {
    type Value = Expression;

    ghost Tree = { Tree };

    ghost tree = { view };

    ghost reading = { expression_of };

    fn read<'a>(
        alloc: Global,
        total: usize,
        room: usize,
        tokens: &'a [Token],
    ) -> Result<(Expression, &'a [Token]), ReadError> {
        let (found, rest) = read_expression(alloc, total, room, tokens)?;
        Ok((Box::into_inner(found), rest))
    }
}

/// The same, by what its reader gives alone.
fn read_expression(
    alloc: Global,
    total: usize,
    room: usize,
    tokens: &[Token],
) -> Result<(Box<Expression>, &[Token]), ReadError>
    requires { room < 1000 }
    ensures { Gives (λ x. (view x.0.value, x.1.now)) result (expression_of total room tokens.now) }
{
    let (found, rest) = expression_at(alloc, total, room, tokens)?;
    Ok((found.expression, rest))
}

/// Reads the target of an assignment (annex A.8.5) at the front of the tokens, as [`expression`] does an expression.
pub fn target(
    alloc: Global,
    total: usize,
    room: usize,
    tokens: &[Token],
) -> Result<(Box<Target>, &[Token]), ReadError>
    requires { room < 1000 }
    ensures gives { Gives (λ x. (view_target x.0.value, x.1.now)) result (target_of total room tokens.now) }
    // What is read is a target that spells the tokens up to those that are given, within the height.
    ensures found { IfOk result
        (λ x. TargetSpans total (view_target x.0.value) tokens.now x.1.now × (target_height (view_target x.0.value) ≤ room + 1)) }
    // A target within the height behind which no `[` stands is read, unless memory runs out.
    ensures only { (t : TargetTree) (rest : List Token) → TargetSpans total t tokens.now rest → target_height t ≤ room + 1
        → follow rest < 13 → IsRead (λ x. (view_target x.0.value ≡ t) × (x.1.now ≡ rest)) result }
    // A refusal is at the first token that no partial target within the height spells.
    ensures refused { IfErr result (λ e. IsRefusal (λ n rest. TargetBegins total n tokens.now rest) (room + 1) e) }
{
    target_at(alloc, total, room, tokens)
}

/// A text has at most one expression.
pub fn one_expression()
    ensures { (d e : Tree) (text : List Token) → Spans (length text) d text [] → Spans (length text) e text [] → d ≡ e }
{}

/// A text has at most one target.
pub fn one_target()
    ensures { (s t : TargetTree) (text : List Token) → TargetSpans (length text) s text [] → TargetSpans (length text) t text [] → s ≡ t }
{}
