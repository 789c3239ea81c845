//! What is found in an expression, from what was found in its operands.

ghost use Rattle.std.specs.Prelude.{◌≡◌, IfOk, OnOk};
ghost use Rattle.v_check.specs.Constants.Made.{AreUnary, AreBinary, AreConditional};
ghost use Rattle.v_check.specs.Constants.Checked.{ChecksNumber, ChecksBracketed, ChecksUnary, ChecksBinary, ChecksConditional, sized_at};

use crate::constants::checked::Checked;
use crate::constants::operands::{made_of_one, made_of_three, made_of_two};
use crate::contextual::Contextual;
use four_value::Bits;
use gpi::Term;
use port_io::NoMemory;
use std::alloc::Global;
use v_flat::scope::{ElabRule, Found, MOST_DIGITS};
use v_flat::{BinaryClass, UnaryClass, binary_class, unary_class};
use v_syntax::{BinaryOperator, TokenNumber, UnaryOperator};

/// What is found has at most [`MOST_DIGITS`] digits, or else TooWide is broken too, at this token. IEEE 1364-2005, clause 5.4.1,
/// gives the widths, and the limit is narrower than that of clause 4.3.1.
pub fn sized(place: TokenNumber, found: Found<Checked>) -> Found<Checked>
    ensures { result ≡ sized_at place found }
{
    match found {
        Found::Sound(c) => {
            let fits = c.width <= MOST_DIGITS;
            Found::Sound(c).wants(fits, ElabRule::TooWide, place)
        }
        Found::Noted(fault, c) => {
            let fits = c.width <= MOST_DIGITS;
            let whole = Found::Sound(c).wants(fits, ElabRule::TooWide, place);
            whole.noted(fault)
        }
        Found::Lost(fault) => Found::Lost(fault),
    }
}

/// What is made of one operand. Only want of memory is an error.
fn of_one(
    alloc: Global,
    class: UnaryClass,
    operand: Found<Checked>,
) -> Result<Found<Checked>, NoMemory>
    ensures { IfOk result (AreUnary class operand) }
{
    match operand {
        Found::Sound(a) => Ok(Found::Sound(made_of_one(alloc, class, a)?)),
        Found::Noted(fault, a) => Ok(Found::Noted(fault, made_of_one(alloc, class, a)?)),
        Found::Lost(fault) => Ok(Found::Lost(fault)),
    }
}

/// What is made of two operands. Only want of memory is an error.
fn of_two(
    alloc: Global,
    class: BinaryClass,
    operands: Found<(Checked, Checked)>,
) -> Result<Found<Checked>, NoMemory>
    ensures { IfOk result (AreBinary class operands) }
{
    match operands {
        Found::Sound((a, b)) => Ok(Found::Sound(made_of_two(alloc, class, a, b)?)),
        Found::Noted(fault, (a, b)) => Ok(Found::Noted(fault, made_of_two(alloc, class, a, b)?)),
        Found::Lost(fault) => Ok(Found::Lost(fault)),
    }
}

/// What is made of a condition and its branches. Only want of memory is an error.
fn of_three(
    alloc: Global,
    operands: Found<(Checked, (Checked, Checked))>,
) -> Result<Found<Checked>, NoMemory>
    ensures { IfOk result (AreConditional operands) }
{
    match operands {
        Found::Sound((c, (a, b))) => Ok(Found::Sound(made_of_three(alloc, c, a, b)?)),
        Found::Noted(fault, (c, (a, b))) => {
            Ok(Found::Noted(fault, made_of_three(alloc, c, a, b)?))
        }
        Found::Lost(fault) => Ok(Found::Lost(fault)),
    }
}

/// A number.
pub fn number(value: Bits) -> Found<Checked>
    ensures { ChecksNumber value result }
{
    Found::Sound(Checked {
        width: value.width(),
        form: Contextual::Settled(Term::Const(value)),
    })
}

/// `( inner )`, where `place` is the number of its first token.
pub fn bracketed(place: TokenNumber, inner: Found<Checked>) -> Found<Checked>
    ensures { ChecksBracketed place inner result }
{
    sized(place, inner)
}

/// An operator at the token `place` before its operand. Only want of memory is an error.
pub fn unary(
    alloc: Global,
    place: TokenNumber,
    operator: UnaryOperator,
    operand: Found<Checked>,
) -> Result<Found<Checked>, NoMemory>
    ensures { IfOk result (ChecksUnary place operator operand) }
{
    Ok(sized(place, of_one(alloc, unary_class(operator), operand)?))
}

/// An operator between its operands, where `place` is the number of the first token. Only want of memory is an error.
pub fn binary(
    alloc: Global,
    place: TokenNumber,
    operator: BinaryOperator,
    left: Found<Checked>,
    right: Found<Checked>,
) -> Result<Found<Checked>, NoMemory>
    ensures { IfOk result (ChecksBinary place operator left right) }
{
    let operands = left.both(right);
    Ok(sized(place, of_two(alloc, binary_class(operator), operands)?))
}

/// `condition ? yes : no`, where `place` is the number of the first token. Only want of memory is an error.
pub fn conditional(
    alloc: Global,
    place: TokenNumber,
    condition: Found<Checked>,
    yes: Found<Checked>,
    no: Found<Checked>,
) -> Result<Found<Checked>, NoMemory>
    ensures { IfOk result (ChecksConditional place condition yes no) }
{
    let operands = condition.both(yes.both(no));
    Ok(sized(place, of_three(alloc, operands)?))
}
