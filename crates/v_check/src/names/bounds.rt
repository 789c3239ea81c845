//! Ranges of vectors and memories.

ghost use Rattle.std.specs.Prelude.{◌≡◌, ◌≤◌};
ghost use Rattle.gpi.specs.Terms.{IsWidth};
ghost use Rattle.v_flat.specs.Scope.Limits.{most_words};
ghost use Rattle.v_flat.specs.Scope.Scope.{is_falling, low_of, width_of};
ghost use Rattle.v_flat.specs.Objects.{range_of, words_of};

use gpi::{Order, Range, SigId, Words};
use v_flat::scope::Bounds;

/// The size of a range: how many indices it has, both bounds counted (clause 4.3.1).
pub fn range_size(bounds: Bounds) -> u64
    ensures { result ≡ width_of bounds }
{
    if bounds.left <= bounds.right {
        u64::from(bounds.right - bounds.left) + 1
    } else {
        u64::from(bounds.left - bounds.right) + 1
    }
}

/// How many words a memory of at most 65,536 has (clause 4.9).
pub fn word_count(bounds: Bounds) -> u32
    requires { width_of bounds ≤ most_words }
    ensures { result ≡ width_of bounds }
{
    range_size(bounds) as u32
}

/// The width of a vector of 1 to 128 digits that has this range (clause 4.3.1).
pub fn width(bounds: Bounds) -> u8
    requires { IsWidth (width_of bounds) }
    ensures { result ≡ width_of bounds }
{
    range_size(bounds) as u8
}

/// The least index.
fn low(bounds: Bounds) -> u32
    ensures { result ≡ low_of bounds }
{
    bounds.left.min(bounds.right)
}

/// Whether the indices fall from the highest digit on; equal bounds count as falling, which the standard leaves open (clause 4.3.1).
pub(crate) fn falls(bounds: Bounds) -> bool
    ensures { result ≡ is_falling bounds }
{
    bounds.right <= bounds.left
}

/// The range of a vector: its least index, and which way its indices go (clause 4.3.1).
pub fn range(bounds: Bounds) -> Range
    ensures { result ≡ range_of bounds }
{
    let order = if falls(bounds) {
        Order::Falling
    } else {
        Order::Rising
    };
    Range {
        low: low(bounds),
        order,
    }
}

/// The words of a memory of at most 65,536, from their first signal on (clause 4.9).
pub fn words(first: u32, bounds: Bounds) -> Words
    requires { width_of bounds ≤ most_words }
    ensures { result ≡ words_of first bounds }
{
    Words {
        first: SigId(first),
        low: low(bounds),
        count: word_count(bounds),
    }
}
