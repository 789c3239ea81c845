//! The tokens of a text, by number.

ghost use Rattle.std.specs.Prelude.{◌≡◌, ℕ};

use std::marker::Model;

/// A token of a text, by its number from 0: the place at which a rule points. The end of the text may be one. Clauses see it as the
/// number.
#[derive(Clone, Copy, Debug, PartialEq, Eq)]
pub struct TokenNumber {
    number: usize,
}

impl Model for TokenNumber {
    ghost Value = { ℕ };

    ghost view = { λ n. n.number };

    ghost inverse = { λ n. record { number = n } };
}

impl TokenNumber {
    /// The token with this number.
    pub fn new(number: usize) -> TokenNumber
        ensures { result ≡ number }
    {
        TokenNumber { number }
    }

    /// The number.
    pub fn number(self) -> usize
        ensures { result ≡ self }
    {
        self.number
    }
}
