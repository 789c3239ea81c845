//! How far a word reaches.

ghost use Rattle.std.specs.Prelude.{◌≡◌, ◌≤◌, ◌<◌, ◌==◌, not, true, length, count_by, slice_index};
ghost use Rattle.std.specs.List.{take_while};
ghost use Rattle.py_syntax.specs.Bytes;

use crate::bytes::{is_number_byte, is_word_byte};

/// How many bytes of a name stand at the front.
#[tactic(auto, using(crate::proofs::Passes::first_passes))]
pub fn word_len(text: &[u8]) -> usize
    ensures value { result ≡ length (take_while Bytes.is_word_byte text.now) }
    ensures bound { result ≤ length text.now }
    ensures positive { Bytes.is_word_byte (slice_index text.now 0) ≡ true → 0 < result }
{
    text.iter().take_while(|byte| is_word_byte(**byte)).count()
}

/// How many bytes of a number of this base stand at the front.
#[tactic(auto, using(crate::proofs::Passes::first_passes))]
pub fn number_len(base: u8, text: &[u8]) -> usize
    ensures value { result ≡ length (take_while (Bytes.is_number_byte base) text.now) }
    ensures bound { result ≤ length text.now }
    ensures positive { Bytes.is_number_byte base (slice_index text.now 0) ≡ true → 0 < result }
{
    text.iter()
        .take_while(|byte| is_number_byte(base, **byte))
        .count()
}

/// How many bytes stand before the line feed.
#[tactic(auto, using(crate::proofs::Passes::first_passes))]
pub fn line_len(text: &[u8]) -> usize
    ensures value { result ≡ length (take_while (λ b. not (b == 10)) text.now) }
    ensures bound { result ≤ length text.now }
    ensures positive { 0 < length text.now → not (slice_index text.now 0 == 10) ≡ true → 0 < result }
{
    text.iter().take_while(|byte| **byte != b'\n').count()
}

/// How many spaces stand at the front.
pub fn space_len(text: &[u8]) -> usize
    ensures { result ≡ length (take_while (λ b. b == 32) text.now) }
{
    text.iter().take_while(|byte| **byte == b' ').count()
}

/// How many line feeds there are.
pub fn line_feeds(text: &[u8]) -> usize
    ensures value { result ≡ Bytes.line_feeds text.now }
    ensures bound { result ≤ length text.now }
{
    text.iter().filter(|byte| **byte == b'\n').count()
}
