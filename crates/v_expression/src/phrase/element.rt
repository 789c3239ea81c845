//! What a list may be made of.

ghost use Rattle.std.specs.Prelude.{◌≡◌, ◌<◌, ℕ};
ghost use Rattle.v_expression.specs.Phrase.Readers.{Reader};
ghost use Rattle.v_expression.specs.Phrase.Stops.{Gives};

use crate::phrase::read_error::ReadError;
use std::alloc::Global;
use v_syntax::Token;

/// A phrase that may be an element of a list. The type that it is implemented for stands for the phrase, and has no values.
pub trait Element {
    /// What is read.
    type Value: Drop;

    /// What its trees are.
    ghost Tree: { Type 0 };

    /// The tree of what is read.
    ghost tree: { Self.Value → Tree };

    /// How it is read from the front of tokens of a text of so many, with so many levels below it.
    ghost reading: { ℕ → ℕ → Reader Tree };

    /// The element at the front of the tokens, and the tokens behind it.
    fn read<'a>(
        alloc: Global,
        total: usize,
        room: usize,
        tokens: &'a [Token],
    ) -> Result<(Self::Value, &'a [Token]), ReadError>
        requires { room < 1000 }
        ensures { Gives (λ x. (tree x.0, x.1.now)) result (reading total room tokens.now) };
}
