//! What is declared of a name.

ghost use Rattle.std.specs.Prelude.{◌≡◌, ◌&&◌, ℕ, List, [], option_map};
ghost use Rattle.v_flat.specs.Objects.{count_of};
ghost use Rattle.v_flat.specs.Declarations.{are_halves, is_direction_alone, is_input_reg, is_sort_alone, kind_of, same_bounds, whole_of};
ghost use Rattle.v_layout.specs.Kept.{named_declared, sort_in};

use v_check::names::range_size;
use v_flat::scope::{Bounds, DataKind};
use v_syntax::Direction;

/// The kind of a declaration.
#[derive(Clone, Copy)]
pub enum Sort {
    /// `wire` (IEEE 1364-2005, clause 4.2.1).
    Wire,
    /// `reg` (clause 4.2.2).
    Reg,
    /// `integer` (clause 4.8).
    Integer,
}

/// What is declared of a name.
#[derive(Clone, Copy)]
pub struct Declared {
    /// The direction of a port (IEEE 1364-2005, clause 12.3.3).
    pub direction: Option<Direction>,
    /// What it is; none of a port that only has a direction.
    pub sort: Option<Sort>,
    /// The range of its digits, or of those of each word.
    pub bounds: Bounds,
    /// The range of a memory's words (clause 4.9).
    pub words: Option<Bounds>,
}

/// A name with what is declared of it.
#[derive(Clone, Copy)]
pub struct Line<'a> {
    /// The name.
    pub name: &'a [u8],
    /// What is declared of it.
    pub declared: Declared,
}

impl Declared {
    /// How many signals it has: one, or as many as a memory has words.
    pub(crate) fn signal_count(self) -> u64
        ensures { result ≡ count_of self.words }
    {
        match self.words {
            None => 1,
            Some(words) => range_size(words),
        }
    }

    /// Whether it is a port's direction, with neither `wire` nor `reg`.
    fn is_direction_alone(self) -> bool
        ensures { result ≡ is_direction_alone (named_declared [] self) }
    {
        self.direction.is_some() && self.sort.is_none()
    }

    /// Whether it is `wire` or `reg` with no direction, and no memory.
    fn is_sort_alone(self) -> bool
        ensures { result ≡ is_sort_alone (named_declared [] self) }
    {
        let is_net_or_reg = match self.sort {
            Some(Sort::Wire | Sort::Reg) => true,
            Some(Sort::Integer) | None => false,
        };
        self.direction.is_none() && (is_net_or_reg && self.words.is_none())
    }

    /// Whether one of two declarations has the direction alone, and the other one `wire` or `reg` alone (clause 12.3.3).
    fn is_half_with(self, other: Declared) -> bool
        ensures { result ≡ are_halves (named_declared [] self) (named_declared [] other) }
    {
        (self.is_direction_alone() && other.is_sort_alone())
            || (self.is_sort_alone() && other.is_direction_alone())
    }

    /// Whether another declaration of the name is the other half of this one, with the same range.
    pub(crate) fn goes_with(self, other: Declared) -> bool
        ensures { result ≡ (are_halves (named_declared [] self) (named_declared [] other) && same_bounds self.bounds other.bounds) }
    {
        self.is_half_with(other)
            && (self.bounds.left == other.bounds.left && self.bounds.right == other.bounds.right)
    }

    /// Both halves of a declaration.
    pub(crate) fn whole(self, other: Declared) -> Declared
        ensures { (n : List ℕ) → named_declared n result ≡ whole_of (named_declared n self) (named_declared n other) }
    {
        Declared {
            direction: self.direction.or(other.direction),
            sort: self.sort.or(other.sort),
            bounds: self.bounds,
            words: self.words,
        }
    }

    /// Whether it is an `input` that is declared as `reg`.
    pub(crate) fn is_input_reg(self) -> bool
        ensures { result ≡ is_input_reg self.direction (option_map sort_in self.sort) }
    {
        match self.direction {
            Some(Direction::Input) => match self.sort {
                Some(Sort::Reg) => true,
                Some(Sort::Wire | Sort::Integer) | None => false,
            },
            Some(Direction::Output) | None => false,
        }
    }

    /// What gives it its value.
    pub fn kind(self) -> DataKind
        ensures { result ≡ kind_of self.direction (option_map sort_in self.sort) }
    {
        match self.direction {
            Some(Direction::Input) => DataKind::Input,
            Some(Direction::Output) | None => match self.sort {
                Some(Sort::Reg | Sort::Integer) => DataKind::Register,
                Some(Sort::Wire) | None => DataKind::Net,
            },
        }
    }
}
