//! The lines of a traced run, by their parts.
ghost use Rattle.std.specs.Prelude.{◌≡◌, ◌∷◌, ◌++◌, ℕ, ◌<◌, ◌^◌, [], List, IsTrue, IfOk, MatchOption, codes};
ghost use Rattle.std.specs.List.{list_all};
ghost use Rattle.std.specs.Fmt.{decimal};
ghost use Rattle.vcd_text.specs.Spelling.{is_digit};
ghost use Rattle.vcd_text.specs.Splits.{HasParts, IsSplit, SaysNumber, SplitsFirst, SplitsLast, has_no_blank};

use port_io::NoMemory;
use std::alloc::Global;

/// The texts of a line that tells a change: its time, the path of its signal and its digits.
#[derive(Clone, Copy, Drop)]
struct ChangeTexts<'a> {
    time: &'a [u8],
    path: &'a [u8],
    digits: &'a [u8],
}

/// A change that a line tells: its time in steps, the path of its signal and its digits.
#[derive(Clone, Copy, Drop)]
pub(crate) struct Parts<'a> {
    pub(crate) time: u64,
    pub(crate) path: &'a [u8],
    pub(crate) digits: &'a [u8],
}

/// What stands before the first blank and behind it.
pub(crate) fn split_first(text: &[u8]) -> Option<(&[u8], &[u8])>
    ensures { MatchOption result (IsTrue (has_no_blank text.now)) (λ x. SplitsFirst text.now x.0.now x.1.now) }
{
    for at in 0..text.len() {
        if text[at] == b' ' {
            return Some((text.split_at(at).0, text.split_at(at + 1).1));
        }
    }
    None
}

/// What stands before the last blank and behind it.
fn split_last(text: &[u8]) -> Option<(&[u8], &[u8])>
    ensures { MatchOption result (IsTrue (has_no_blank text.now)) (λ x. SplitsLast text.now x.0.now x.1.now) }
{
    let mut behind = text.len();
    'back: while behind > 0 {
        let at = behind - 1;
        if text[at] == b' ' {
            return Some((text.split_at(at).0, text.split_at(behind).1));
        }
        behind = at;
    }
    None
}

/// What stands before the line feed that ends a line.
pub(crate) fn without_feed(line: &[u8]) -> Option<&[u8]>
    ensures { MatchOption result ((text : List ℕ) → line.now ≡ text ++ 10 ∷ [] → ⊥) (λ text. line.now ≡ text.now ++ 10 ∷ []) }
{
    let (last, text) = line.split_last()?;
    if *last == b'\n' { Some(text) } else { None }
}

/// What stands behind the word `SIG` and a blank.
fn behind_word(text: &[u8]) -> Option<&[u8]>
    ensures { MatchOption result ((rest : List ℕ) → text.now ≡ codes "SIG " ++ rest → ⊥) (λ rest. text.now ≡ codes "SIG " ++ rest.now) }
{
    match text {
        [b'S', b'I', b'G', b' ', rest @ ..] => Some(rest),
        _ => None,
    }
}

/// Whether a byte is `0`, `1`, `x` or `z`.
pub(crate) fn is_digit(byte: u8) -> bool
    ensures { result ≡ is_digit byte }
{
    byte == b'0' || byte == b'1' || byte == b'x' || byte == b'z'
}

/// Whether all bytes are digits.
pub(crate) fn are_digits(text: &[u8]) -> bool
    ensures { result ≡ list_all is_digit text.now }
{
    text.iter().all(|byte| is_digit(*byte))
}

/// The path and the digits that stand behind the word, with a blank between them.
fn path_and_digits(text: &[u8]) -> Option<(&[u8], &[u8])>
    ensures { MatchOption result
        ((path digits : List ℕ) → text.now ≡ path ++ 32 ∷ digits → IsTrue (list_all is_digit digits) → ⊥)
        (λ x. (text.now ≡ x.0.now ++ 32 ∷ x.1.now) × IsTrue (list_all is_digit x.1.now)) }
{
    let Some((path, digits)) = split_last(text) else {
        return None;
    };
    if are_digits(digits) {
        Some((path, digits))
    } else {
        None
    }
}

/// The texts of a line that tells a change.
fn texts_of(line: &[u8]) -> Option<ChangeTexts<'_>>
    ensures { MatchOption result
        ((time path digits : List ℕ) → IsSplit line.now time path digits → ⊥)
        (λ split. IsSplit line.now split.time.now split.path.now split.digits.now) }
{
    let text = without_feed(line)?;
    let (time, rest) = split_first(text)?;
    let (path, digits) = path_and_digits(behind_word(rest)?)?;
    Some(ChangeTexts { time, path, digits })
}

/// The number of 64 bits that a text says in decimal digits.
fn number_in(text: &str) -> Option<u64>
    ensures { MatchOption result ((number : ℕ) → SaysNumber text.now number → ⊥) (λ number. SaysNumber text.now number) }
{
    if text.as_bytes().first() == Some(&b'+') {
        return None;
    }
    match text.parse::<u64>() {
        Ok(number) => Some(number),
        _ => None,
    }
}

/// The time, where the text is what it is written as. Only want of memory is an error.
fn same_time(alloc: Global, text: &[u8], time: u64) -> Result<Option<u64>, NoMemory>
    ensures { IfOk result (λ found. MatchOption found (text.now ≡ decimal time → ⊥) (λ own. (own ≡ time) × (text.now ≡ decimal time))) }
{
    let own = time.to_string(alloc)?;
    if own.as_bytes() == text {
        Ok(Some(time))
    } else {
        Ok(None)
    }
}

/// The time that a text says as it is written. Only want of memory is an error.
pub(crate) fn time_of(alloc: Global, text: &[u8]) -> Result<Option<u64>, NoMemory>
    ensures { IfOk result (λ found. MatchOption found
        ((time : ℕ) → time < 2 ^ 64 → text.now ≡ decimal time → ⊥) (λ time. text.now ≡ decimal time)) }
{
    match std::str::from_utf8(text) {
        Ok(digits) => match number_in(digits) {
            Some(time) => same_time(alloc, text, time),
            None => Ok(None),
        },
        Err(_) => Ok(None),
    }
}

/// The change that a line tells, by the path of its signal. Only want of memory is an error.
pub(crate) fn parts_of(alloc: Global, line: &[u8]) -> Result<Option<Parts<'_>>, NoMemory>
    ensures { IfOk result (λ found. MatchOption found
        ((time : ℕ) (path digits : List ℕ) → HasParts line.now time path digits → ⊥)
        (λ parts. HasParts line.now parts.time parts.path.now parts.digits.now)) }
{
    let Some(split) = texts_of(line) else {
        return Ok(None);
    };
    match time_of(alloc, split.time) {
        Ok(Some(time)) => Ok(Some(Parts {
            time,
            path: split.path,
            digits: split.digits,
        })),
        Ok(None) => Ok(None),
        Err(NoMemory) => Err(NoMemory),
    }
}
