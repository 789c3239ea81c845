//! What a select chooses from a vector, or from a word of a memory.

ghost use Rattle.std.specs.Prelude.{◌≡◌, max};
ghost use Rattle.four_value.specs.Vector.{number};
ghost use Rattle.v_flat.specs.Scope.Found.{and_then, both, each};
ghost use Rattle.v_flat.specs.Scope.Scope.{span};
ghost use Rattle.v_flat.specs.Scope.Limits.{counted_width};
ghost use Rattle.v_flat.specs.Checks.{go_with, narrow};
ghost use Rattle.v_check.specs.Names.Made.{bit_choice, choice_from, lesser_of, pair_choice, range_choice};
ghost use Rattle.v_check.specs.Names.Selects.{ChecksChoice};

use crate::constants::number_or_zero;
use crate::names::CheckedSelect;
use crate::names::bounds::falls;
use four_value::Bits;
use gpi::Term;
use v_flat::scope::{Bounds, ElabRule, Found, MOST_DIGITS};
use v_syntax::TokenNumber;

/// So many digits, from an index upwards.
#[derive(Drop)]
pub struct Choice {
    /// The least index.
    pub index: Term,
    /// How many digits, 1 to 128.
    pub width: u8,
}

/// One digit.
fn bit(index: Found<Term>) -> Found<Choice>
    ensures { result ≡ each bit_choice index }
{
    match index {
        Found::Sound(index) => Found::Sound(Choice { index, width: 1 }),
        Found::Noted(fault, index) => Found::Noted(fault, Choice { index, width: 1 }),
        Found::Lost(fault) => Found::Lost(fault),
    }
}

/// At most 128 digits, or else TooWide is broken at this token.
fn narrowed(place: TokenNumber, width: Found<u8>) -> Found<u8>
    ensures { result ≡ and_then width (narrow place) }
{
    match width {
        Found::Sound(w) => Found::Sound(w).needs(w <= MOST_DIGITS, ElabRule::TooWide, place),
        Found::Noted(fault, w) => {
            let narrow = Found::Sound(w).needs(w <= MOST_DIGITS, ElabRule::TooWide, place);
            narrow.noted(fault)
        }
        Found::Lost(fault) => Found::Lost(fault),
    }
}

/// Digits from an index upwards, and how many.
fn paired(found: Found<(Term, u8)>) -> Found<Choice>
    ensures { result ≡ each pair_choice found }
{
    match found {
        Found::Sound((index, width)) => Found::Sound(Choice { index, width }),
        Found::Noted(fault, (index, width)) => Found::Noted(fault, Choice { index, width }),
        Found::Lost(fault) => Found::Lost(fault),
    }
}

/// The vector with the lesser number; one without a number, where there is one.
fn lesser(left: Bits, right: Bits) -> Bits
    ensures { result ≡ lesser_of left right }
{
    match (left.to_number(), right.to_number()) {
        (Some(a), Some(b)) => { if a <= b { left } else { right } }
        (Some(_), None) => right,
        (None, _) => left,
    }
}

/// How many indices lie between two, both counted, where `TOO_WIDE` stands for more than 128.
fn indices(left: u128, right: u128) -> u8
    ensures { result ≡ counted_width (span left right) }
{
    let between = if left <= right {
        right - left
    } else {
        left - right
    };
    between.min(u128::from(MOST_DIGITS)) as u8 + 1
}

/// Whether two indices go with the direction of a range (clause 5.2.1).
fn goes_with(bounds: Bounds, left: u128, right: u128) -> bool
    ensures { result ≡ go_with bounds left right }
{
    if falls(bounds) {
        right <= left
    } else {
        left <= right
    }
}

/// The digits of a part-select with constant bounds.
fn part_select(
    at: TokenNumber,
    place: TokenNumber,
    bounds: Bounds,
    left: Bits,
    right: Bits,
) -> Found<Choice>
    ensures { result ≡ range_choice at place bounds left right }
{
    let i = number_or_zero(left);
    let j = number_or_zero(right);
    let width = indices(i, j);
    let index = Term::Const(lesser(left, right));
    let narrow = Found::Sound(Choice { index, width }).needs(
        width <= MOST_DIGITS,
        ElabRule::TooWide,
        place,
    );
    narrow.needs(goes_with(bounds, i, j), ElabRule::BadRange, at)
}

/// The digits of a part-select, where both constants are known.
fn found_part(
    at: TokenNumber,
    place: TokenNumber,
    bounds: Bounds,
    found: Found<(Bits, Bits)>,
) -> Found<Choice>
    ensures { result ≡ and_then found (λ x. range_choice at place bounds x.0 x.1) }
{
    match found {
        Found::Sound((left, right)) => part_select(at, place, bounds, left, right),
        Found::Noted(fault, (left, right)) => part_select(at, place, bounds, left, right).noted(
            fault,
        ),
        Found::Lost(fault) => Found::Lost(fault),
    }
}

/// What a select chooses from a range, where `place` is the number of the name (clause 5.2).
pub fn chosen(place: TokenNumber, bounds: Bounds, select: CheckedSelect) -> Found<Choice>
    ensures is { result ≡ choice_from place bounds select }
    ensures checks { ChecksChoice place bounds select result }
{
    match select {
        CheckedSelect::Bit { index, .. } => bit(index),
        CheckedSelect::Part { at, left, right } => found_part(at, place, bounds, left.both(right)),
        CheckedSelect::IndexedPart { base, width, .. } => {
            paired(base.followed_by(narrowed(place, width)))
        }
    }
}
