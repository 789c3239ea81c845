//! Statements, those that hold others among them.

ghost use Rattle.std.specs.Prelude.{◌≡◌, ◌<◌, map, option_map};
ghost use Rattle.v_syntax.specs.StatementTrees.{view, view_case};
ghost use Rattle.v_syntax.specs.Statements;
ghost use Rattle.v_expression.specs.Phrase.Stops.{Gives};
ghost use Rattle.v_statement.specs.Reading.{
  lower,
  statement_of,
  statements_of,
  block_of,
  conditional_of,
  otherwise_of,
  case_item_of,
  case_items_of,
  case_of,
  for_of,
};

use crate::forms::{form, starts_case, starts_statement};
use crate::heads::{block_end, block_head, case_head, choices, condition, for_head};
use crate::levels::below_statement;
use crate::simple::{assignment, delay, null_statement};
use crate::tasks::task_enable;
use crate::trees::{case_item, case_statement, for_statement, if_statement};
use port_io::boxed;
use std::alloc::Global;
use v_expression::phrase::{ReadError, after_word, starts_word, syntax_error};
use v_syntax::{CaseItem, Keyword, Statement, StatementForm, StatementPlace, Token};

/// A statement with so many levels below its own.
#[cycle(statements)]
pub fn statement_at(
    alloc: Global,
    total: usize,
    room: usize,
    place: StatementPlace,
    tokens: &[Token],
) -> Result<(Box<Statement>, &[Token]), ReadError>
    requires { room < 1000 }
    ensures { Gives (λ x. (view x.0.value, x.1.now)) result (statement_of total room place tokens.now) }
{
    match form(place, tokens) {
        None => Err(syntax_error(tokens)),
        Some(StatementForm::Null) => null_statement(alloc, tokens),
        Some(StatementForm::Block) => block_at(alloc, total, room, place, tokens),
        Some(StatementForm::Assignment) => assignment(alloc, total, room, tokens),
        Some(StatementForm::If) => conditional_at(alloc, total, room, inside(place), tokens),
        Some(StatementForm::Case) => case_at(alloc, total, room, inside(place), tokens),
        Some(StatementForm::For) => for_at(alloc, total, room, inside(place), tokens),
        Some(StatementForm::TaskEnable) => task_enable(alloc, total, room, tokens),
        Some(StatementForm::Delay) => delay(alloc, total, tokens),
    }
}

/// A statement one level down.
#[cycle(statements)]
#[tactic(auto, unfolding(crate::specs::Reading::lower, crate::specs::Reading::levels))]
fn lower_at(
    alloc: Global,
    total: usize,
    room: usize,
    place: StatementPlace,
    tokens: &[Token],
) -> Result<(Box<Statement>, &[Token]), ReadError>
    requires { room < 1000 }
    ensures { Gives (λ x. (view x.0.value, x.1.now)) result (lower total room place tokens.now) }
{
    let below = below_statement(total, room, place, tokens)?;
    statement_at(alloc, total, below, place, tokens)
}

/// Where the parts of a statement stand.
fn inside(place: StatementPlace) -> StatementPlace
    ensures { result ≡ Statements.inside place }
{
    match place {
        StatementPlace::InAlways => StatementPlace::InAlways,
        StatementPlace::InInitial | StatementPlace::WholeInitial => StatementPlace::InInitial,
    }
}

/// `begin [: name] {statement} end` (IEEE 1364-2005, clause 9.8.1), where it may with a delay behind the statements
#[cycle(statements)]
#[tactic(auto, unfolding(crate::specs::Reading::block_of))]
fn block_at(
    alloc: Global,
    total: usize,
    room: usize,
    place: StatementPlace,
    tokens: &[Token],
) -> Result<(Box<Statement>, &[Token]), ReadError>
    requires { room < 1000 }
    ensures { Gives (λ x. (view x.0.value, x.1.now)) result (block_of total room place (lower total room (Statements.inside place)) tokens.now) }
{
    let (label, rest) = block_head(alloc, tokens)?;
    let (statements, rest) = statements_at(alloc, total, room, inside(place), rest)?;
    block_end(alloc, total, room, place, label, statements, rest)
}

/// The statements of a block.
#[cycle(statements)]
#[tactic(auto, unfolding(crate::specs::Reading::statements_of))]
fn statements_at(
    alloc: Global,
    total: usize,
    room: usize,
    place: StatementPlace,
    tokens: &[Token],
) -> Result<(Vec<Statement>, &[Token]), ReadError>
    requires { room < 1000 }
    ensures { Gives (λ x. (map view x.0.items, x.1.now)) result (statements_of place (lower total room place) tokens.now) }
{
    let mut all = Vec::new(alloc);
    let mut rest = tokens;
    for _ in 0..tokens.len() {
        if !starts_statement(place, rest) {
            break;
        }
        let (another, others) = lower_at(alloc, total, room, place, rest)?;
        all.push(Box::into_inner(another))?;
        rest = others;
    }
    Ok((all, rest))
}

/// `if ( expression ) statement [else statement]` (clause 9.4)
#[cycle(statements)]
#[tactic(auto, unfolding(crate::specs::Reading::conditional_of))]
fn conditional_at(
    alloc: Global,
    total: usize,
    room: usize,
    place: StatementPlace,
    tokens: &[Token],
) -> Result<(Box<Statement>, &[Token]), ReadError>
    requires { room < 1000 }
    ensures { Gives (λ x. (view x.0.value, x.1.now)) result (conditional_of total room (lower total room place) tokens.now) }
{
    let (condition, rest) = condition(alloc, total, room, tokens)?;
    let (branch, rest) = lower_at(alloc, total, room, place, rest)?;
    let (otherwise, rest) = otherwise_at(alloc, total, room, place, rest)?;
    Ok((
        boxed(alloc, if_statement(condition, branch, otherwise))?,
        rest,
    ))
}

/// `else statement`, if it stands here: it belongs to the nearest `if`.
#[cycle(statements)]
#[tactic(auto, unfolding(crate::specs::Reading::otherwise_of))]
fn otherwise_at(
    alloc: Global,
    total: usize,
    room: usize,
    place: StatementPlace,
    tokens: &[Token],
) -> Result<(Option<Box<Statement>>, &[Token]), ReadError>
    requires { room < 1000 }
    ensures { Gives (λ x. (option_map (λ b. view b.value) x.0, x.1.now)) result (otherwise_of (lower total room place) tokens.now) }
{
    if !starts_word(Keyword::Else, tokens) {
        return Ok((None, tokens));
    }
    let rest = after_word(Keyword::Else, tokens)?;
    let (otherwise, rest) = lower_at(alloc, total, room, place, rest)?;
    Ok((Some(otherwise), rest))
}

/// `case ( expression ) item {item} endcase` (clause 9.5)
#[cycle(statements)]
#[tactic(auto, unfolding(crate::specs::Reading::case_of))]
fn case_at(
    alloc: Global,
    total: usize,
    room: usize,
    place: StatementPlace,
    tokens: &[Token],
) -> Result<(Box<Statement>, &[Token]), ReadError>
    requires { room < 1000 }
    ensures { Gives (λ x. (view x.0.value, x.1.now)) result (case_of total room (lower total room place) tokens.now) }
{
    let (head, rest) = case_head(alloc, total, room, tokens)?;
    let (items, rest) = case_items_at(alloc, total, room, place, rest)?;
    let rest = after_word(Keyword::EndCase, rest)?;
    Ok((boxed(alloc, case_statement(head, items))?, rest))
}

/// The items of a case statement that has so many levels below its own.
#[cycle(statements)]
#[tactic(auto, unfolding(crate::specs::Reading::case_items_of))]
fn case_items_at(
    alloc: Global,
    total: usize,
    room: usize,
    place: StatementPlace,
    tokens: &[Token],
) -> Result<(Vec<CaseItem>, &[Token]), ReadError>
    requires { room < 1000 }
    ensures { Gives (λ x. (map view_case x.0.items, x.1.now)) result (case_items_of total room (lower total room place) tokens.now) }
{
    let (first, behind) = case_item_at(alloc, total, room, place, tokens)?;
    let mut all = Vec::new(alloc);
    all.push(first)?;
    let mut rest = behind;
    for _ in 0..behind.len() {
        if !starts_case(rest) {
            break;
        }
        let (another, others) = case_item_at(alloc, total, room, place, rest)?;
        all.push(another)?;
        rest = others;
    }
    Ok((all, rest))
}

/// `expression , .. : statement` or `default [:] statement`
#[cycle(statements)]
#[tactic(auto, unfolding(crate::specs::Reading::case_item_of))]
fn case_item_at(
    alloc: Global,
    total: usize,
    room: usize,
    place: StatementPlace,
    tokens: &[Token],
) -> Result<(CaseItem, &[Token]), ReadError>
    requires { room < 1000 }
    ensures { Gives (λ x. (view_case x.0, x.1.now)) result (case_item_of total room (lower total room place) tokens.now) }
{
    let (labels, rest) = choices(alloc, total, room, tokens)?;
    let (statement, rest) = lower_at(alloc, total, room, place, rest)?;
    Ok((case_item(labels, statement), rest))
}

/// `for header statement` (clause 9.6)
#[cycle(statements)]
#[tactic(auto, unfolding(crate::specs::Reading::for_of))]
fn for_at(
    alloc: Global,
    total: usize,
    room: usize,
    place: StatementPlace,
    tokens: &[Token],
) -> Result<(Box<Statement>, &[Token]), ReadError>
    requires { room < 1000 }
    ensures { Gives (λ x. (view x.0.value, x.1.now)) result (for_of total room (lower total room place) tokens.now) }
{
    let (head, rest) = for_head(alloc, total, room, tokens)?;
    let (body, rest) = lower_at(alloc, total, room, place, rest)?;
    Ok((boxed(alloc, for_statement(head, body))?, rest))
}
