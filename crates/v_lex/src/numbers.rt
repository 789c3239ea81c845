//! Numbers.

ghost use Rattle.std.specs.Prelude.{◌≡◌, ◌≤◌, ◌<◌, ◌+◌, ◌^◌, ◌++◌, length, take, drop, Option, IfSome, SomeIff, option_map, ◌==◌};
ghost use Rattle.std.specs.List.{list_all};
ghost use Rattle.v_lex.specs.Bytes.{is_in};
ghost use Rattle.v_lex.specs.Numbers.{decimal_step, decimal_of, digits_below, begins_with_digit, lone_unknown};
ghost use Rattle.v_lex.specs.Numbers.{decimal_vector, vector_in, vector_of, size_of};
ghost use Rattle.v_lex.specs.Digits.{unknown_of, hexadecimal_of, digits_of, fill_of, bits_of};
ghost use Rattle.v_lex.specs.Pieces.{base_at, number_or_bad, plain_value, based_value, number_at};

use crate::base::Base;
use crate::bytes::ByteClass;
use crate::directive::{Content, LexRule, Piece};
use crate::runs::run;
use four_value::{Bits, Digit};
use v_syntax::Token;

/// The number with one more low digit, below 2 to the power of 128.
fn decimal_step(n: u128, byte: u8) -> Option<u128>
    ensures { SomeIff result (decimal_step n byte < 2 ^ 128) (decimal_step n byte) }
{
    if byte == b'_' {
        return Some(n);
    }
    let digit = u128::from(byte.saturating_sub(b'0'));
    n.checked_mul(10)?.checked_add(digit)
}

/// The number that decimal digits and underscores write, below 2 to the power of 128.
fn decimal_of(text: &[u8]) -> Option<u128>
    ensures { result ≡ decimal_of text.now }
{
    let mut n: u128 = 0;
    for byte in text {
        let Some(more) = decimal_step(n, *byte) else {
            return None;
        };
        n = more;
    }
    Some(n)
}

/// The size that is written before a base: 1 to 128, and 32 where none is.
#[tactic(auto, unfolding(crate::specs::Numbers::size_of))]
fn size_of(text: &[u8]) -> Option<u8>
    ensures is { result ≡ size_of text.now }
    ensures some { IfSome result (λ n. 1 ≤ n) }
    ensures most { IfSome result (λ n. n ≤ 128) }
{
    if text.is_empty() {
        return Some(32);
    }
    let n = decimal_of(text)?;
    if 1 <= n && n <= 128 {
        Some(n as u8)
    } else {
        None
    }
}

/// The digit that `x`, `z` and `?` stand for.
fn unknown_of(byte: u8) -> Option<Digit>
    ensures { result ≡ unknown_of byte }
{
    if byte == b'x' || byte == b'X' {
        return Some(Digit::X);
    }
    if byte == b'z' || byte == b'Z' || byte == b'?' {
        return Some(Digit::Z);
    }
    None
}

/// The value of a digit up to `f`, and 16 for any other byte.
fn hexadecimal_of(byte: u8) -> u8
    ensures { result ≡ hexadecimal_of byte }
{
    if b'0' <= byte && byte <= b'9' {
        return byte - b'0';
    }
    if b'a' <= byte && byte <= b'f' {
        return byte - 87;
    }
    if b'A' <= byte && byte <= b'F' {
        return byte - 55;
    }
    16
}

/// The bits of one written digit.
#[tactic(auto, unfolding(crate::specs::Digits::digits_of))]
fn digits_of(bits: u8, byte: u8) -> Option<Bits>
    requires some { 1 ≤ bits }
    requires few { bits ≤ 4 }
    ensures { result ≡ digits_of bits byte }
{
    match unknown_of(byte) {
        Some(digit) => Some(Bits::all(bits, digit)),
        None => {
            let value = hexadecimal_of(byte);
            if value < (1 << bits) {
                Some(Bits::from_number(bits, u128::from(value)))
            } else {
                None
            }
        }
    }
}

/// The lowest digits of `low` below those of `above`, as many as `above` has.
fn below(above: Bits, low: Bits) -> Bits
    ensures is { result ≡ take (length above) (low ++ above) }
    ensures wide { length result ≡ length above }
{
    let width = above.width();
    let new = low.width();
    if new < width {
        above.slice(0, width - new).concat(low)
    } else {
        low.slice(0, width)
    }
}

/// The bits of written digits below those of `above`, as many as `above` has.
fn digits_below(bits: u8, above: Bits, text: &[u8]) -> Option<Bits>
    requires some { 1 ≤ bits }
    requires few { bits ≤ 4 }
    ensures { result ≡ option_map (take (length above)) (digits_below bits above text.now) }
{
    let mut read = above;
    for byte in text {
        if *byte == b'_' {
            continue;
        }
        let Some(digits) = digits_of(bits, *byte) else {
            return None;
        };
        read = below(read, digits);
    }
    Some(read)
}

/// What missing high digits are.
fn fill_of(text: &[u8]) -> Digit
    ensures { result ≡ fill_of text.now }
{
    match text.first() {
        Some(first) => unknown_of(*first).unwrap_or(Digit::Zero),
        None => Digit::Zero,
    }
}

fn are_underscores(text: &[u8]) -> bool
    ensures { result ≡ list_all (λ b. b == 95) text.now }
{
    text.iter().all(|byte| *byte == b'_')
}

fn are_decimal(text: &[u8]) -> bool
    ensures { result ≡ list_all (is_in ByteClass.Decimal) text.now }
{
    text.iter().all(|byte| ByteClass::Decimal.contains(*byte))
}

/// A single `x`, `z` or `?`, behind which underscores may stand.
fn lone_unknown(text: &[u8]) -> Option<Digit>
    ensures { result ≡ lone_unknown text.now }
{
    let (first, rest) = text.split_first()?;
    if are_underscores(rest) {
        unknown_of(*first)
    } else {
        None
    }
}

fn decimal_vector(size: u8, text: &[u8]) -> Option<Bits>
    requires some { 1 ≤ size }
    requires most { size ≤ 128 }
    ensures { result ≡ decimal_vector size text.now (lone_unknown text.now) }
{
    if let Some(digit) = lone_unknown(text) {
        return Some(Bits::all(size, digit));
    }
    if are_decimal(text) {
        Some(Bits::from_number(size, decimal_of(text)?))
    } else {
        None
    }
}

fn vector_in(base: Base, size: u8, text: &[u8]) -> Option<Bits>
    requires some { 1 ≤ size }
    requires most { size ≤ 128 }
    ensures { result ≡ vector_in base size text.now }
{
    match base {
        Base::Decimal => decimal_vector(size, text),
        Base::Binary | Base::Octal | Base::Hexadecimal => {
            digits_below(base.bits(), Bits::all(size, fill_of(text)), text)
        }
    }
}

/// The vector of the size that written digits stand for.
#[tactic(auto, unfolding(crate::specs::Numbers::vector_of))]
fn vector_of(base: Base, size: u8, text: &[u8]) -> Option<Bits>
    requires some { 1 ≤ size }
    requires most { size ≤ 128 }
    ensures { result ≡ vector_of base size text.now }
{
    let first = text.first()?;
    if *first == b'_' {
        return None;
    }
    vector_in(base, size, text)
}

fn number_or_bad(size: usize, value: Option<Bits>) -> Piece
    ensures { result ≡ number_or_bad size value }
{
    let content = match value {
        Some(bits) => Content::Token(Token::Number(bits)),
        None => Content::Broken(LexRule::BadNumber),
    };
    Piece { size, content }
}

/// The value of decimal digits alone.
fn plain_value(digits: &[u8]) -> Option<Bits>
    ensures { result ≡ plain_value digits.now }
{
    Some(Bits::from_number(32, decimal_of(digits)?))
}

/// The value of a size, a base and the digits behind it.
fn based_value(size: &[u8], base: Base, written: &[u8]) -> Option<Bits>
    ensures { result ≡ based_value size.now base written.now }
{
    vector_of(base, size_of(size)?, written)
}

/// The base that `'` and a letter name.
#[tactic(auto, unfolding(crate::specs::Pieces::base_at))]
fn base_at(text: &[u8]) -> Option<Base>
    ensures is { result ≡ base_at text.now }
    ensures within { IfSome result (λ _. 2 ≤ length text.now) }
{
    match text {
        [b'\'', letter, ..] => Base::of(*letter),
        _ => None,
    }
}

/// A number (IEEE 1364-2005, clause 3.5), or a `'` that begins none.
#[tactic(auto, unfolding(crate::specs::Pieces::number_at))]
pub fn number_at(text: &[u8]) -> Piece
    requires some { 1 ≤ length text.now }
    requires most { length text.now < 2 ^ 60 }
    ensures is { result ≡ number_at text.now }
    ensures some { 1 ≤ result.size }
    ensures within { result.size ≤ length text.now }
{
    let (digits, rest) = text.split_at(run(ByteClass::Decimal, text));
    match base_at(rest) {
        Some(base) => {
            let (_, behind) = rest.split_at(2);
            let (written, _) = behind.split_at(run(ByteClass::Written, behind));
            number_or_bad(
                digits.len() + 2 + written.len(),
                based_value(digits, base, written),
            )
        }
        None if digits.is_empty() => Piece {
            size: 1,
            content: Content::Broken(LexRule::BadByte),
        },
        None => number_or_bad(digits.len(), plain_value(digits)),
    }
}
