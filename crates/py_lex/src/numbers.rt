//! Numbers.

ghost use Rattle.std.specs.Prelude.{◌≡◌, ◌+◌, ◌*◌, ◌^◌, ◌<◌, ◌≤◌, false};
ghost use Rattle.py_syntax.specs.Numbers;
ghost use Rattle.py_lex.specs.Limit.{limited, limited_option};

use crate::bytes::byte_at;

/// The greatest number of a text, 2^127 - 1.
const GREATEST: u128 = 170141183460469231731687303715884105727;

/// The value of a digit, or 16 where a byte is none.
fn digit_value(byte: u8) -> u8
    ensures value { result ≡ Numbers.digit_value byte }
    ensures bound { result ≤ 16 }
{
    match byte {
        b'0'..=b'9' => byte - b'0',
        b'a'..=b'f' => byte - b'a' + 10,
        b'A'..=b'F' => byte - b'A' + 10,
        _ => 16,
    }
}

/// The base that `0x`, `0o` or `0b` says, else 10.
pub fn base_of(word: &[u8]) -> u8
    ensures value { result ≡ Numbers.base_of word.now }
    ensures low { 2 ≤ result }
    ensures high { result ≤ 16 }
{
    if byte_at(word, 0) != b'0' {
        return 10;
    }
    match byte_at(word, 1) {
        b'x' => 16,
        b'o' => 8,
        b'b' => 2,
        _ => 10,
    }
}

/// The digits of a word.
fn digits_of(word: &[u8]) -> &[u8]
    ensures { result.now ≡ Numbers.digits_of word.now }
{
    if base_of(word) == 10 {
        word
    } else if word.len() < 2 {
        &[]
    } else {
        &word[2..]
    }
}

/// A value with one more digit behind it, if it isn't too great.
fn one_digit_more(value: u128, base: u8, digit: u8) -> Option<u128>
    requires base { base ≤ 16 }
    requires digit { digit ≤ 16 }
    ensures { result ≡ limited (value * base + digit) }
{
    let next = value
        .checked_mul(u128::from(base))?
        .checked_add(u128::from(digit))?;
    (next <= GREATEST).then_some(next)
}

/// The number that these digits of a base are, if it isn't too great.
#[tactic(auto, using(crate::proofs::Digits::too_great, crate::proofs::Digits::limited_none), unfolding(py_syntax::specs::Numbers::digits_from))]
fn digits_value(base: u8, digits: &[u8]) -> Option<u128>
    requires low { 2 ≤ base }
    requires high { base ≤ 16 }
    ensures { result ≡ limited_option (Numbers.digits_from base false 0 digits.now) }
{
    let mut value = 0;
    let mut after_digit = false;
    for byte in digits {
        if *byte == b'_' {
            if !after_digit {
                return None;
            }
            after_digit = false;
        } else {
            let digit = digit_value(*byte);
            if digit >= base {
                return None;
            }
            let Some(next) = one_digit_more(value, base, digit) else {
                return None;
            };
            value = next;
            after_digit = true;
        }
    }
    after_digit.then_some(value)
}

/// The number that a word is.
#[tactic(auto, using(crate::proofs::Digits::allowed_some, crate::proofs::Digits::allowed_none), unfolding(py_syntax::specs::Numbers::number_of))]
pub fn number_of(word: &[u8]) -> Option<u128>
    ensures { result ≡ Numbers.number_of word.now }
{
    let base = base_of(word);
    let value = digits_value(base, digits_of(word))?;
    if base == 10 && byte_at(word, 0) == b'0' && value != 0 {
        return None;
    }
    Some(value)
}
