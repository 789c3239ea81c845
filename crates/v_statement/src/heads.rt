//! The parts of statements that hold statements, but for those statements.

ghost use Rattle.std.specs.Prelude.{◌≡◌, ◌<◌, map, option_map};
ghost use Rattle.v_syntax.specs.ExpressionTrees;
ghost use Rattle.v_syntax.specs.StatementTrees.{view, view_header};
ghost use Rattle.v_expression.specs.Phrase.Stops.{Gives};
ghost use Rattle.v_statement.specs.Reading.{
  label_of,
  maybe_label_of,
  block_head_of,
  delay_below_of,
  maybe_delay_of,
  last_delay_of,
  block_end_of,
  condition_of,
  case_head_of,
  choices_of,
  default_of,
  matched_of,
  for_head_of,
};

use crate::kinds::case_kind;
use crate::levels::below;
use crate::simple::{delay, for_header};
use crate::trees::{block, with_delay};
use port_io::{Name, boxed};
use std::alloc::Global;
use v_expression::phrase::{
    ReadError, after, after_word, listed, name, place as number_of, starts_mark, starts_word,
};
use v_expression::{ExpressionPhrase, expression};
use v_syntax::{
    CaseKind, Expression, ForHeader, Keyword, Mark, Statement, StatementPlace, Token, TokenNumber,
};

// ---- blocks

/// `: name`, if it stands here
#[tactic(auto, unfolding(crate::specs::Reading::label_of, crate::specs::Reading::maybe_label_of))]
fn label(alloc: Global, tokens: &[Token]) -> Result<(Option<Name>, &[Token]), ReadError>
    ensures { Gives (λ x. (x.0, x.1.now)) result (maybe_label_of tokens.now) }
{
    if !starts_mark(Mark::Colon, tokens) {
        return Ok((None, tokens));
    }
    let rest = after(Mark::Colon, tokens)?;
    let (name, rest) = name(alloc, rest)?;
    Ok((Some(name), rest))
}

/// `begin [: name]`
#[tactic(auto, unfolding(crate::specs::Reading::block_head_of))]
pub fn block_head(alloc: Global, tokens: &[Token]) -> Result<(Option<Name>, &[Token]), ReadError>
    ensures { Gives (λ x. (x.0, x.1.now)) result (block_head_of tokens.now) }
{
    let rest = after_word(Keyword::Begin, tokens)?;
    label(alloc, rest)
}

/// `# number ;` one level down
#[tactic(auto, unfolding(crate::specs::Reading::delay_below_of, crate::specs::Reading::levels))]
fn delay_below(
    alloc: Global,
    total: usize,
    room: usize,
    tokens: &[Token],
) -> Result<(Box<Statement>, &[Token]), ReadError>
    ensures { Gives (λ x. (view x.0.value, x.1.now)) result (delay_below_of total room tokens.now) }
{
    let _below = below(room, tokens)?;
    delay(alloc, total, tokens)
}

/// A delay, if one stands here.
#[tactic(auto, unfolding(crate::specs::Reading::maybe_delay_of))]
fn maybe_delay(
    alloc: Global,
    total: usize,
    room: usize,
    tokens: &[Token],
) -> Result<(Option<Box<Statement>>, &[Token]), ReadError>
    ensures { Gives (λ x. (option_map (λ b. view b.value) x.0, x.1.now)) result (maybe_delay_of total room tokens.now) }
{
    if !starts_mark(Mark::Hash, tokens) {
        return Ok((None, tokens));
    }
    let (delay, rest) = delay_below(alloc, total, room, tokens)?;
    Ok((Some(delay), rest))
}

/// The same where one may stand: only the block that is the whole statement of an `initial` ends with one.
#[tactic(auto, unfolding(crate::specs::Reading::last_delay_of))]
fn last_delay(
    alloc: Global,
    total: usize,
    room: usize,
    place: StatementPlace,
    tokens: &[Token],
) -> Result<(Option<Box<Statement>>, &[Token]), ReadError>
    ensures { Gives (λ x. (option_map (λ b. view b.value) x.0, x.1.now)) result (last_delay_of total room place tokens.now) }
{
    match place {
        StatementPlace::InAlways | StatementPlace::InInitial => Ok((None, tokens)),
        StatementPlace::WholeInitial => maybe_delay(alloc, total, room, tokens),
    }
}

/// `[# number ;] end`: what stands behind the statements of a block, and the block.
#[tactic(auto, unfolding(crate::specs::Reading::block_end_of))]
pub fn block_end(
    alloc: Global,
    total: usize,
    room: usize,
    place: StatementPlace,
    label: Option<Name>,
    statements: Vec<Statement>,
    tokens: &[Token],
) -> Result<(Box<Statement>, &[Token]), ReadError>
    ensures { Gives (λ x. (view x.0.value, x.1.now)) result (block_end_of total room place label (map view statements.items) tokens.now) }
{
    let (last, rest) = last_delay(alloc, total, room, place, tokens)?;
    let rest = after_word(Keyword::End, rest)?;
    let statements = with_delay(statements, last)?;
    Ok((boxed(alloc, block(label, statements))?, rest))
}

// ---- conditional statements

/// `if ( expression )`
#[tactic(auto, unfolding(crate::specs::Reading::condition_of, crate::specs::Reading::levels))]
pub fn condition(
    alloc: Global,
    total: usize,
    room: usize,
    tokens: &[Token],
) -> Result<(Box<Expression>, &[Token]), ReadError>
    requires { room < 1000 }
    ensures { Gives (λ x. (ExpressionTrees.view x.0.value, x.1.now)) result (condition_of total room tokens.now) }
{
    let below = below(room, tokens)?;
    let rest = after_word(Keyword::If, tokens)?;
    let rest = after(Mark::OpenParenthesis, rest)?;
    let (condition, rest) = expression(alloc, total, below, rest)?;
    let rest = after(Mark::CloseParenthesis, rest)?;
    Ok((condition, rest))
}

// ---- case statements

/// `case ( expression )`, or with `casez` or `casex`
#[tactic(auto, unfolding(crate::specs::Reading::case_head_of, crate::specs::Reading::levels))]
pub fn case_head(
    alloc: Global,
    total: usize,
    room: usize,
    tokens: &[Token],
) -> Result<((CaseKind, Box<Expression>), &[Token]), ReadError>
    requires { room < 1000 }
    ensures { Gives (λ x. ((x.0.0, ExpressionTrees.view x.0.1.value), x.1.now)) result (case_head_of total room tokens.now) }
{
    let below = below(room, tokens)?;
    let (kind, rest) = case_kind(tokens)?;
    let rest = after(Mark::OpenParenthesis, rest)?;
    let (selector, rest) = expression(alloc, total, below, rest)?;
    let rest = after(Mark::CloseParenthesis, rest)?;
    Ok(((kind, selector), rest))
}

/// `default [:]`: the tokens behind it
#[tactic(auto, unfolding(crate::specs::Reading::default_of))]
fn after_default(tokens: &[Token]) -> Result<&[Token], ReadError>
    ensures { Gives (λ x. (tt, x.now)) result (default_of tokens.now) }
{
    let rest = after_word(Keyword::Default, tokens)?;
    if !starts_mark(Mark::Colon, rest) {
        return Ok(rest);
    }
    let rest = after(Mark::Colon, rest)?;
    Ok(rest)
}

/// `expression , .. :`
#[tactic(auto, unfolding(crate::specs::Reading::matched_of, crate::specs::Reading::levels))]
fn matched(
    alloc: Global,
    total: usize,
    room: usize,
    tokens: &[Token],
) -> Result<(Vec<Expression>, &[Token]), ReadError>
    requires { room < 1000 }
    ensures { Gives (λ x. (map ExpressionTrees.view x.0.items, x.1.now)) result (matched_of total room tokens.now) }
{
    let below = below(room, tokens)?;
    let (labels, rest) = listed::<ExpressionPhrase>(alloc, total, below, tokens)?;
    let rest = after(Mark::Colon, rest)?;
    Ok((labels, rest))
}

/// What stands before the statement of an item of a case statement: its expressions, or `None` for `default`.
#[tactic(auto, unfolding(crate::specs::Reading::choices_of))]
pub fn choices(
    alloc: Global,
    total: usize,
    room: usize,
    tokens: &[Token],
) -> Result<(Option<Vec<Expression>>, &[Token]), ReadError>
    requires { room < 1000 }
    ensures { Gives (λ x. (option_map (λ v. map ExpressionTrees.view v.items) x.0, x.1.now)) result (choices_of total room tokens.now) }
{
    if starts_word(Keyword::Default, tokens) {
        let rest = after_default(tokens)?;
        return Ok((None, rest));
    }
    let (labels, rest) = matched(alloc, total, room, tokens)?;
    Ok((Some(labels), rest))
}

// ---- loops

/// `for header`, with the number of its first token
#[tactic(auto, unfolding(crate::specs::Reading::for_head_of, crate::specs::Reading::levels))]
pub fn for_head(
    alloc: Global,
    total: usize,
    room: usize,
    tokens: &[Token],
) -> Result<((TokenNumber, Box<ForHeader>), &[Token]), ReadError>
    requires { room < 1000 }
    ensures { Gives (λ x. ((x.0.0, view_header x.0.1.value), x.1.now)) result (for_head_of total room tokens.now) }
{
    let below = below(room, tokens)?;
    let rest = after_word(Keyword::For, tokens)?;
    let (header, rest) = for_header(alloc, total, below, rest)?;
    let at = number_of(total, tokens);
    Ok(((at, header), rest))
}
