//! The calls of `four_value`, by the names in the table.
ghost use Rattle.std.specs.Prelude.{◌≡◌, ◌≤◌, length};

use crate::vectors::fields::{digit, vector, width};
use four_value::{Bits, Digit};

/// What a call with these operands answers, where a digit is a vector of width 1.
pub fn outcome(call: &str, operands: &str) -> Option<Bits> {
    match call {
        "not" | "reduce_and" | "reduce_or" | "reduce_xor" => of_vector(call, vector(operands)?),
        "all" | "from_number" | "resize" => of_width(call, operands),
        "digit" | "with_digit" | "slice" => of_place(call, operands),
        _ => {
            let (first, second) = operands.split_once(' ')?;
            of_vectors(call, vector(first)?, vector(second)?)
        }
    }
}

fn single(d: Digit) -> Bits {
    Bits::all(1, d)
}

fn of_vector(call: &str, bits: Bits) -> Option<Bits> {
    match call {
        "not" => Some(bits.not()),
        "reduce_and" => Some(single(bits.reduce_and())),
        "reduce_or" => Some(single(bits.reduce_or())),
        "reduce_xor" => Some(single(bits.reduce_xor())),
        _ => None,
    }
}

fn of_vectors(call: &str, left: Bits, right: Bits) -> Option<Bits> {
    match call {
        "shl" => Some(left.shl(right)),
        "shr" => Some(left.shr(right)),
        "concat" => if left.width() <= 128 - right.width() {
            Some(left.concat(right))
        } else {
            None
        },
        _ => if left.width() == right.width() {
            match call {
                "lt" | "eq" | "case_eq" => compared(call, left, right),
                _ => combined(call, left, right),
            }
        } else {
            None
        },
    }
}

fn combined(call: &str, left: Bits, right: Bits) -> Option<Bits>
    requires { length left ≡ length right }
{
    match call {
        "and" => Some(left.and(right)),
        "or" => Some(left.or(right)),
        "xor" => Some(left.xor(right)),
        "add" => Some(left.add(right)),
        "sub" => Some(left.sub(right)),
        "mul" => Some(left.mul(right)),
        "div" => Some(left.div(right)),
        "rem" => Some(left.rem(right)),
        "merge" => Some(left.merge(right)),
        _ => None,
    }
}

fn compared(call: &str, left: Bits, right: Bits) -> Option<Bits>
    requires { length left ≡ length right }
{
    match call {
        "lt" => Some(single(left.lt(right))),
        "eq" => Some(single(left.eq(right))),
        "case_eq" => Some(single(left.case_eq(right))),
        _ => None,
    }
}

fn of_width(call: &str, operands: &str) -> Option<Bits> {
    let (first, second) = operands.split_once(' ')?;
    match call {
        "all" => Some(Bits::all(width(first)?, digit(second)?)),
        "from_number" => Some(Bits::from_number(width(first)?, second.parse::<u128>().ok()?)),
        "resize" => Some(vector(first)?.resize(width(second)?)),
        _ => None,
    }
}

fn of_place(call: &str, operands: &str) -> Option<Bits> {
    let (first, others) = operands.split_once(' ')?;
    let bits = vector(first)?;
    let (place, last) = others.split_once(' ').unwrap_or((others, ""));
    let place = place.parse::<u8>().ok()?;
    if place >= bits.width() {
        return None;
    }
    match call {
        "digit" => Some(single(bits.digit(place))),
        "with_digit" => Some(bits.with_digit(place, digit(last)?)),
        "slice" => part(bits, place, width(last)?),
        _ => None,
    }
}

fn part(bits: Bits, low: u8, width: u8) -> Option<Bits>
    requires { 1 ≤ width }
{
    if low <= bits.width() && width <= bits.width() - low {
        Some(bits.slice(low, width))
    } else {
        None
    }
}
