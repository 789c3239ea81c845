//! The parts of a row.

ghost use Rattle.std.specs.Prelude.{◌≡◌, ◌∷◌, [], ◌<◌, length, IfOk, MatchOption};
ghost use Rattle.table_rows.specs.Rows.{front_of, behind, part_at, written, decimal, digit};

use std::alloc::{AllocError, Global};
use std::marker::Model;

/// A line, whose parts stand between tabs.
#[derive(Drop)]
pub struct Row<'a> {
    line: &'a [u8],
}

impl<'a> Model for Row<'a> {
    ghost use Rattle.std.specs.Prelude.{ℕ, List};

    ghost Value = { List ℕ };

    ghost view = { λ a. a.line.now };
}

impl<'a> Row<'a> {
    /// The row that a line is.
    pub fn of(line: &'a [u8]) -> Row<'a>
        ensures { result ≡ line.now }
    {
        Row { line }
    }

    /// Part `i`, counted from 0; an empty one where the line has fewer.
    #[tactic(auto, unfolding(crate::specs::Rows::from_part))]
    pub fn part(&self, i: usize) -> &'a [u8]
        ensures { result.now ≡ part_at i self.now }
    {
        let mut rest = self.line;
        for _ in 0..i {
            (_, rest) = cut(rest, b'\t');
        }
        cut(rest, b'\t').0
    }

    /// Part `i` as a text, in which `\` stands before two hexadecimal digits of a byte. Only want of memory is an error.
    pub fn text(&self, alloc: Global, i: usize) -> Result<Vec<u8>, AllocError>
        ensures { IfOk result (λ text. text.items ≡ written (part_at i self.now)) }
    {
        text_of(alloc, self.part(i))
    }

    /// Part `i` as a number that decimal digits say, the largest of 64 bits where it is beyond.
    pub fn number(&self, i: usize) -> u64
        ensures { result ≡ decimal (part_at i self.now) }
    {
        number_of(self.part(i))
    }
}

/// What stands before the first such byte, and behind it; all and nothing where there is none.
pub fn cut(line: &[u8], mark: u8) -> (&[u8], &[u8])
    ensures front { result.0.now ≡ front_of mark line.now }
    ensures behind { result.1.now ≡ behind mark line.now }
{
    for i in 0..line.len() {
        if line[i] == mark {
            return (&line[..i], &line[i + 1..]);
        }
    }
    (line, &[])
}

/// The value of a hexadecimal digit in lower case.
fn digit_of(byte: u8) -> u8
    ensures { result ≡ digit byte }
{
    let value = if byte < b'a' {
        byte.saturating_sub(b'0')
    } else {
        byte.saturating_sub(87)
    };
    value % 16
}

/// The first byte that a part says, and the part behind it.
#[tactic(auto, unfolding(crate::specs::Rows::written, crate::specs::Rows::escaped))]
fn first_of(part: &[u8]) -> Option<(u8, &[u8])>
    ensures { MatchOption result (written part.now ≡ []) (λ x. (written part.now ≡ x.0 ∷ written x.1.now) × (length x.1.now < length part.now)) }
{
    match part {
        [b'\\', high, low, behind @ ..] => { Some((16 * digit_of(*high) + digit_of(*low), behind)) }
        [] | [b'\\', ..] => None,
        [byte, behind @ ..] => Some((*byte, behind)),
    }
}

/// The text that a part says, in which `\` stands before two hexadecimal digits of a byte. Only want of memory is an error.
pub fn text_of(alloc: Global, part: &[u8]) -> Result<Vec<u8>, AllocError>
    ensures { IfOk result (λ text. text.items ≡ written part.now) }
{
    let mut text = Vec::new(alloc);
    let mut rest = part;
    while let Some((byte, behind)) = first_of(rest) {
        text.push(byte)?;
        rest = behind;
    }
    Ok(text)
}

/// The number that decimal digits say, the largest of 64 bits where it is beyond.
#[tactic(auto, using(crate::proofs::Numbers::read_on))]
pub fn number_of(part: &[u8]) -> u64
    ensures { result ≡ decimal part.now }
{
    let mut number = 0u64;
    for byte in part {
        number = number
            .saturating_mul(10)
            .saturating_add(u64::from(byte.saturating_sub(b'0')));
    }
    number
}
