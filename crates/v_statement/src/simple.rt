//! Statements without statements in them.

ghost use Rattle.std.specs.Prelude.{◌≡◌, ◌<◌};
ghost use Rattle.v_syntax.specs.StatementTrees.{view, view_variable, view_header};
ghost use Rattle.v_expression.specs.Phrase.Stops.{Gives};
ghost use Rattle.v_statement.specs.Reading.{delay_of, assignment_of, variable_of, header_of, null_of};
ghost use Rattle.v_statement.specs.Reading.{later_kind_of, assignment_kind_of};

use crate::levels::below;
use port_io::boxed;
use std::alloc::Global;
use v_expression::phrase::{ReadError, after, identifier, next, place, starts_mark, syntax_error};
use v_expression::{expression, target};
use v_syntax::{AssignmentKind, ForHeader, Mark, Statement, Token, VariableAssignment};

/// `;`
#[tactic(auto, unfolding(crate::specs::Reading::null_of))]
pub fn null_statement(
    alloc: Global,
    tokens: &[Token],
) -> Result<(Box<Statement>, &[Token]), ReadError>
    ensures { Gives (λ x. (view x.0.value, x.1.now)) result (null_of tokens.now) }
{
    let rest = after(Mark::Semicolon, tokens)?;
    Ok((boxed(alloc, Statement::Null)?, rest))
}

/// `# number ;` (IEEE 1364-2005, clause 9.7.1)
#[tactic(auto, unfolding(crate::specs::Reading::delay_of))]
pub fn delay(
    alloc: Global,
    total: usize,
    tokens: &[Token],
) -> Result<(Box<Statement>, &[Token]), ReadError>
    ensures { Gives (λ x. (view x.0.value, x.1.now)) result (delay_of total tokens.now) }
{
    let here = after(Mark::Hash, tokens)?;
    let Some((Token::Number(delay), behind)) = next(here) else {
        return Err(syntax_error(here));
    };
    let rest = after(Mark::Semicolon, behind)?;
    let at = place(total, here);
    Ok((boxed(alloc, Statement::Delay { at, delay: *delay })?, rest))
}

/// `<= [# number]`, where the number is a delay (annex A.6.5).
#[tactic(auto, unfolding(crate::specs::Reading::later_kind_of, crate::specs::Reading::delay_control_of))]
fn later_kind(
    alloc: Global,
    total: usize,
    tokens: &[Token],
) -> Result<(Box<AssignmentKind>, &[Token]), ReadError>
    ensures { Gives (λ x. (x.0.value, x.1.now)) result (later_kind_of total tokens.now) }
{
    let rest = after(Mark::LessOrEqual, tokens)?;
    if !starts_mark(Mark::Hash, rest) {
        return Ok((boxed(alloc, AssignmentKind::Nonblocking)?, rest));
    }
    let here = after(Mark::Hash, rest)?;
    let Some((Token::Number(delay), rest)) = next(here) else {
        return Err(syntax_error(here));
    };
    let at = place(total, here);
    let kind = AssignmentKind::Delayed { at, delay: *delay };
    Ok((boxed(alloc, kind)?, rest))
}

/// `=`, or `<= [# number]`
#[tactic(auto, unfolding(crate::specs::Reading::assignment_kind_of))]
fn assignment_kind(
    alloc: Global,
    total: usize,
    tokens: &[Token],
) -> Result<(Box<AssignmentKind>, &[Token]), ReadError>
    ensures { Gives (λ x. (x.0.value, x.1.now)) result (assignment_kind_of total tokens.now) }
{
    if starts_mark(Mark::Assign, tokens) {
        let rest = after(Mark::Assign, tokens)?;
        return Ok((boxed(alloc, AssignmentKind::Blocking)?, rest));
    }
    later_kind(alloc, total, tokens)
}

/// `target = expression ;` or `target <= [# number] expression ;` (clause 9.2)
#[tactic(auto, unfolding(crate::specs::Reading::assignment_of, crate::specs::Reading::levels))]
pub fn assignment(
    alloc: Global,
    total: usize,
    room: usize,
    tokens: &[Token],
) -> Result<(Box<Statement>, &[Token]), ReadError>
    requires { room < 1000 }
    ensures { Gives (λ x. (view x.0.value, x.1.now)) result (assignment_of total room tokens.now) }
{
    let room = below(room, tokens)?;
    let (target, rest) = target(alloc, total, room, tokens)?;
    let (kind, rest) = assignment_kind(alloc, total, rest)?;
    let (value, rest) = expression(alloc, total, room, rest)?;
    let rest = after(Mark::Semicolon, rest)?;
    let made = Statement::Assignment {
        kind: Box::into_inner(kind),
        target: Box::into_inner(target),
        value: Box::into_inner(value),
    };
    Ok((boxed(alloc, made)?, rest))
}

/// `name = expression`
#[tactic(auto, unfolding(crate::specs::Reading::variable_of))]
fn variable_assignment(
    alloc: Global,
    total: usize,
    room: usize,
    tokens: &[Token],
) -> Result<(Box<VariableAssignment>, &[Token]), ReadError>
    requires { room < 1000 }
    ensures { Gives (λ x. (view_variable x.0.value, x.1.now)) result (variable_of total room tokens.now) }
{
    let (name, rest) = identifier(alloc, total, tokens)?;
    let rest = after(Mark::Assign, rest)?;
    let (value, rest) = expression(alloc, total, room, rest)?;
    let value = Box::into_inner(value);
    Ok((boxed(alloc, VariableAssignment { name, value })?, rest))
}

/// `( name = expression ; expression ; name = expression )` (clause 9.6)
#[tactic(auto, unfolding(crate::specs::Reading::header_of))]
pub fn for_header(
    alloc: Global,
    total: usize,
    room: usize,
    tokens: &[Token],
) -> Result<(Box<ForHeader>, &[Token]), ReadError>
    requires { room < 1000 }
    ensures { Gives (λ x. (view_header x.0.value, x.1.now)) result (header_of total room tokens.now) }
{
    let rest = after(Mark::OpenParenthesis, tokens)?;
    let (initial, rest) = variable_assignment(alloc, total, room, rest)?;
    let rest = after(Mark::Semicolon, rest)?;
    let (condition, rest) = expression(alloc, total, room, rest)?;
    let rest = after(Mark::Semicolon, rest)?;
    let (step, rest) = variable_assignment(alloc, total, room, rest)?;
    let rest = after(Mark::CloseParenthesis, rest)?;
    let header = ForHeader {
        initial: Box::into_inner(initial),
        condition: Box::into_inner(condition),
        step: Box::into_inner(step),
    };
    Ok((boxed(alloc, header)?, rest))
}
