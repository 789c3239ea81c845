//! The targets of assignments.

ghost use Rattle.std.specs.Prelude.{◌≡◌, ◌<◌, [], ◌∷◌, ◌++◌, IfOk, OnOk};
ghost use Rattle.v_syntax.specs.ExpressionTrees.{view_target, view_targets, view_selects, NamedTarget, JoinedTarget, more_targets, no_target};
ghost use Rattle.v_expression.specs.Phrase.Stops.{Gives};
ghost use Rattle.v_expression.specs.Reading;
ghost use Rattle.v_expression.specs.Reading.{below, layer, any_target_of, named_target_of, joined_of, target_parts_of};
ghost use Rattle.v_expression.specs.Lists.{and_last_target};

use crate::operators::down;
use crate::phrase::{ReadError, after, behind, next, place, syntax_error};
use crate::selects::selects_at;
use port_io::{Name, boxed};
use std::alloc::Global;
use v_syntax::{Mark, Operand, Target, Token, TokenNumber};

/// A target with so many levels below its own.
#[cycle(targets)]
#[tactic(auto, unfolding(crate::specs::Reading::any_target_of))]
pub fn target_at(
    alloc: Global,
    total: usize,
    room: usize,
    tokens: &[Token],
) -> Result<(Box<Target>, &[Token]), ReadError>
    requires { room < 1000 }
    ensures { Gives (λ x. (view_target x.0.value, x.1.now)) result (any_target_of total room (below total room) tokens.now) }
{
    match next(tokens) {
        Some((Token::Name(name), rest)) => {
            named_target(alloc, total, room, place(total, tokens), name, rest)
        }
        Some((Token::Mark(Mark::OpenBrace), rest)) => joined_at(alloc, total, room, tokens, rest),
        _ => Err(syntax_error(tokens)),
    }
}

#[tactic(auto, unfolding(crate::specs::Reading::named_target_of))]
fn named_target<'a>(
    alloc: Global,
    total: usize,
    room: usize,
    at: TokenNumber,
    name: &Name,
    tokens: &'a [Token],
) -> Result<(Box<Target>, &'a [Token]), ReadError>
    requires { room < 1000 }
    ensures { Gives (λ x. (view_target x.0.value, x.1.now)) result (named_target_of total room (below total room) at name.now tokens.now) }
{
    let (found, rest) = selects_at(alloc, total, room, tokens)?;
    let name = Name::of(alloc, name.bytes())?;
    let operand = Operand {
        at,
        name,
        selects: Box::into_inner(found.selects),
    };
    Ok((boxed(alloc, Target::Operand(operand))?, rest))
}

#[cycle(targets)]
#[tactic(auto, unfolding(crate::specs::Reading::joined_of))]
fn joined_at<'a>(
    alloc: Global,
    total: usize,
    room: usize,
    here: &[Token],
    behind: &'a [Token],
) -> Result<(Box<Target>, &'a [Token]), ReadError>
    requires { room < 1000 }
    ensures { Gives (λ x. (view_target x.0.value, x.1.now)) result (joined_of total room (below total room) here.now behind.now) }
{
    let below = down(total, room, here)?;
    let (first, rest) = target_at(alloc, total, below, behind)?;
    let (parts, rest) = target_parts_at(alloc, total, below, first, rest)?;
    let made = joined(place(total, here), parts);
    Ok((boxed(alloc, made)?, rest))
}

/// Targets whose first one has been read, with commas between, up to a closing brace.
#[cycle(targets)]
fn target_parts_at(
    alloc: Global,
    total: usize,
    below: usize,
    first: Box<Target>,
    tokens: &[Token],
) -> Result<(Vec<Target>, &[Token]), ReadError>
    requires { below < 1000 }
    ensures { Gives (λ x. (view_targets x.0.items, x.1.now)) result
        (target_parts_of (layer total below (Reading.below total below)) (view_target first.value) tokens.now) }
{
    let mut all = Vec::new(alloc);
    all.push(Box::into_inner(first))?;
    let mut rest = tokens;
    for _ in 0..tokens.len() {
        if let Some(behind) = behind(Mark::CloseBrace, rest) {
            return Ok((all, behind));
        }
        let behind = after(Mark::Comma, rest)?;
        let (part, others) = target_at(alloc, total, below, behind)?;
        all.push(Box::into_inner(part))?;
        rest = others;
    }
    Err(syntax_error(rest))
}

fn joined(at: TokenNumber, parts: Vec<Target>) -> Target
    ensures { view_target result ≡ JoinedTarget at (view_targets parts.items) }
{
    Target::Concatenation { at, parts }
}
