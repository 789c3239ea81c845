//! Continuous assignments.

ghost use Rattle.std.specs.Prelude.{◌≡◌, ◌<◌, map};
ghost use Rattle.v_syntax.specs.SourceTrees.{DriverTree, view_driver, view_kind};
ghost use Rattle.v_expression.specs.Phrase.Stops.{Gives};
ghost use Rattle.v_parse.specs.Item.Reading.{driver_of, drivers_of};

use crate::item::parts::value;
use port_io::boxed;
use std::alloc::Global;
use v_expression::phrase::{Element, ReadError, after, after_word, listed};
use v_expression::target;
use v_syntax::{ContinuousAssignment, ItemKind, Keyword, Mark, Token};

/// `target = expression`
#[tactic(auto, unfolding(crate::specs::Item::Reading::driver_of))]
fn driver(
    alloc: Global,
    total: usize,
    room: usize,
    tokens: &[Token],
) -> Result<(ContinuousAssignment, &[Token]), ReadError>
    requires { room < 1000 }
    ensures { Gives (λ x. (view_driver x.0, x.1.now)) result (driver_of total room tokens.now) }
{
    let (target, rest) = target(alloc, total, room, tokens)?;
    let (value, rest) = value(alloc, total, room, rest)?;
    let target = Box::into_inner(target);
    let value = Box::into_inner(value);
    Ok((ContinuousAssignment { target, value }, rest))
}

/// The phrase [`driver`].
enum DriverPhrase {}

impl Element for DriverPhrase {
    type Value = ContinuousAssignment;

    ghost Tree = { DriverTree };

    ghost tree = { view_driver };

    ghost reading = { driver_of };

    fn read<'a>(
        alloc: Global,
        total: usize,
        room: usize,
        tokens: &'a [Token],
    ) -> Result<(ContinuousAssignment, &'a [Token]), ReadError> {
        driver(alloc, total, room, tokens)
    }
}

/// `assign target = expression , .. ;` (IEEE 1364-2005, clause 6.1.2)
#[tactic(auto, unfolding(crate::specs::Item::Reading::drivers_of))]
pub fn continuous_assignments(
    alloc: Global,
    total: usize,
    room: usize,
    tokens: &[Token],
) -> Result<(Box<ItemKind>, &[Token]), ReadError>
    requires { room < 1000 }
    ensures { Gives (λ x. (view_kind x.0.value, x.1.now)) result (drivers_of total room tokens.now) }
{
    let rest = after_word(Keyword::Assign, tokens)?;
    let (all, rest) = listed::<DriverPhrase>(alloc, total, room, rest)?;
    let rest = after(Mark::Semicolon, rest)?;
    Ok((boxed(alloc, ItemKind::ContinuousAssignments(all))?, rest))
}
