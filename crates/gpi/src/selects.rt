//! Selects from vectors and memories.
ghost use Rattle.std.specs.Prelude.{◌≡◌, ◌<◌, ◌≤◌, ◌+◌, length, IfSome};
ghost use Rattle.four_value.specs.Limits.{most_digits};
ghost use Rattle.gpi.specs.Limits.{most_elements};
ghost use Rattle.gpi.specs.Selects.{overlap_of, selected, shown, word_at, IsInside};

use crate::SigId;
use four_value::{Bits, Digit};

/// Which way the indices of a vector run, from its most significant digit (clause 4.3.1).
#[derive(Clone, Copy, Debug, PartialEq, Eq)]
pub enum Order {
    /// `[7:0]`
    Falling,
    /// `[0:7]`
    Rising,
}

/// The declared range of a vector: its least index, and the order of its indices. Its width is that of the vector.
#[derive(Clone, Copy, Debug, PartialEq, Eq)]
pub struct Range {
    pub low: u32,
    pub order: Order,
}

/// The words of a memory: `count` signals from `first` on, by rising index from `low` on (clause 4.9).
#[derive(Clone, Copy, Debug, PartialEq, Eq)]
pub struct Words {
    pub first: SigId,
    pub low: u32,
    pub count: u32,
}

/// The digits of a select that lie in the vector: `count` of them, from the place `place` of the vector and from the
/// place `skip` of the select on.
#[derive(Clone, Copy, Debug, PartialEq, Eq)]
pub struct Overlap {
    pub place: u8,
    pub skip: u8,
    pub count: u8,
}

impl Range {
    /// Where the indices from `base` on, as many as `width`, lie in a vector of this range with `whole` digits; none where
    /// no one of them does, or the base has an x or z digit.
    pub fn overlap(self, whole: u8, base: Option<u128>, width: u8) -> Option<Overlap>
        requires whole { whole ≤ most_digits }
        requires width { width ≤ most_digits }
        ensures is { result ≡ overlap_of self whole base width }
        ensures inside { IfSome result (IsInside whole width) }
    {
        let base = base?;
        let low = u128::from(self.low);
        let top = low + u128::from(whole);
        if base >= top {
            return None;
        }
        let first = if low < base { base } else { low };
        let last = base + u128::from(width);
        let end = if last < top { last } else { top };
        if first >= end {
            return None;
        }
        let (place, skip) = match self.order {
            Order::Falling => (first - low, first - base),
            Order::Rising => (top - end, last - end),
        };
        Some(Overlap {
            place: place as u8,
            skip: skip as u8,
            count: (end - first) as u8,
        })
    }

    /// The digits of the indices from `base` on, as many as `width`: x where an index is outside, all x where the base is
    /// unknown (clause 5.2.1).
    pub fn select(self, from: Bits, base: Option<u128>, width: u8) -> Bits
        requires low { 1 ≤ width }
        requires high { width ≤ most_digits }
        ensures is { result ≡ selected from self base width }
        ensures wide { length result ≡ width }
    {
        match self.overlap(from.width(), base, width) {
            Some(overlap) => surrounded(
                from.slice(overlap.place, overlap.count),
                overlap.skip,
                width,
            ),
            None => Bits::all(width, Digit::X),
        }
    }
}

/// A vector of `width` digits with `middle` from the place `skip` on, and x elsewhere.
fn surrounded(middle: Bits, skip: u8, width: u8) -> Bits
    requires high { width ≤ most_digits }
    requires inside { skip + length middle ≤ width }
    ensures is { result ≡ shown middle skip width }
    ensures wide { length result ≡ width }
{
    let lower = if skip > 0 {
        middle.concat(Bits::all(skip, Digit::X))
    } else {
        middle
    };
    let missing = width - lower.width();
    if missing > 0 {
        Bits::all(missing, Digit::X).concat(lower)
    } else {
        lower
    }
}

impl Words {
    /// The signal of the word at an index; none where the index is unknown or outside (clause 5.2.2).
    pub fn at(self, index: Option<u128>) -> Option<u32>
        requires { self.first.0 + self.count ≤ most_elements }
        ensures is { result ≡ word_at self index }
        ensures inside { IfSome result (λ s. (self.first.0 ≤ s) × (s < self.first.0 + self.count)) }
    {
        let index = index?;
        let low = u128::from(self.low);
        if index < low || index >= low + u128::from(self.count) {
            return None;
        }
        Some(self.first.0 + (index - low) as u32)
    }
}
