//! What a loop comes to.

ghost use Rattle.std.specs.Prelude.{◌≡◌};

use four_value::Bits;
use std::marker::Model;

/// The values that a loop's register has in the turns, in their order, and the one that it has behind the last turn.
#[derive(Drop)]
pub struct LoopTurns {
    pub(crate) values: Vec<Bits>,
    pub(crate) last: Bits,
}

impl Model for LoopTurns {
    ghost use Rattle.std.specs.Prelude.{List};
    ghost use Rattle.four_value.specs.declared.Digit.{Digit};

    ghost Value = { List (List Digit) × List Digit };

    ghost view = { λ s. (s.values.items, s.last) };
}

impl LoopTurns {
    /// The value of the register in each turn, in their order.
    pub fn values(&self) -> &[Bits]
        ensures { result.now ≡ self.now.0 }
    {
        &self.values
    }

    /// The value of the register behind the last turn.
    pub fn last(&self) -> Bits
        ensures { result ≡ self.now.1 }
    {
        self.last
    }
}
