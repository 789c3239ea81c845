//! The tokens of a text.

ghost use Rattle.std.specs.Prelude.{◌≡◌, ◌≤◌, ◌<◌, ◌+◌, ◌↔◌, length, slice_index, slice_index_or, IsTrue};
ghost use Rattle.port_io.specs.Limits.{most_bytes};
ghost use Rattle.v_lex.specs.Lexing.{module_count};

use std::marker::Model;
use v_syntax::Token;

/// The tokens of a text with their byte places, and what its directives set: the unit of time at each `module` and at the end
/// of the text, and the least precision. A text has at most 1,048,576 bytes, and so at most as many tokens.
#[derive(Drop)]
pub struct Tokens {
    tokens: Vec<Token>,
    places: Vec<u32>,
    units: Vec<u64>,
    unit: u64,
    step: u64,
}

impl Model for Tokens {
    ghost use Rattle.std.specs.Prelude.{◌≡◌, ◌≤◌, ◌+◌, length};
    ghost use Rattle.port_io.specs.Limits.{most_bytes};
    ghost use Rattle.v_lex.specs.Lexing.{Lexed, module_count};

    ghost Value = { Lexed };

    ghost view = { λ t. record { tokens = t.tokens.items; places = t.places.items; units = t.units.items; unit = t.unit; step = t.step } };

    ghost invariant = { λ t. (length t.places.items ≡ length t.tokens.items + 1) × (length t.units.items ≡ module_count t.tokens.items)
        × (length t.tokens.items ≤ most_bytes) };
}

impl Tokens {
    /// The tokens, their places and behind them the end of the text, the unit at each `module`, the unit at the end, and the least
    /// precision.
    pub(crate) fn new(
        tokens: Vec<Token>,
        places: Vec<u32>,
        units: Vec<u64>,
        unit: u64,
        step: u64,
    ) -> Tokens
        requires paired { length places.items ≡ length tokens.items + 1 }
        requires one_each { length units.items ≡ module_count tokens.items }
        requires few { length tokens.items ≤ most_bytes }
        ensures { result ≡ record { tokens = tokens.items; places = places.items; units = units.items; unit = unit; step = step } }
    {
        Tokens {
            tokens,
            places,
            units,
            unit,
            step,
        }
    }

    /// How many tokens the text has. It has one place more.
    pub fn len(&self) -> usize
        ensures is { result ≡ length self.now.tokens }
        ensures places { length self.now.places ≡ result + 1 }
        ensures few { result ≤ most_bytes }
    {
        self.tokens.len()
    }

    /// Whether the text has no token.
    pub fn is_empty(&self) -> bool
        ensures { IsTrue result ↔ (length self.now.tokens ≡ 0) }
    {
        self.tokens.is_empty()
    }

    /// The byte place of token `i`, counted from 0; the last place, behind all tokens, is the end of the text.
    pub fn place(&self, i: usize) -> u32
        requires { i ≤ length self.now.tokens }
        ensures { result ≡ slice_index self.now.places i }
    {
        self.places[i]
    }

    /// Token `i`.
    pub fn token(&self, i: usize) -> &Token
        requires { i < length self.now.tokens }
        ensures { result.now ≡ slice_index_or self.now.tokens i result.now }
    {
        &self.tokens[i]
    }

    /// The byte places of all tokens in order, and behind them the end of the text.
    pub fn places(&self) -> &[u32]
        ensures { result.now ≡ self.now.places }
    {
        &self.places
    }

    /// All tokens in order.
    pub fn as_slice(&self) -> &[Token]
        ensures all { result.now ≡ self.now.tokens }
        ensures few { length self.now.tokens ≤ most_bytes }
    {
        &self.tokens
    }

    /// For each token `module`, in order, the unit of time that holds there, in femtoseconds (IEEE 1364-2005, clause 19.8): that of
    /// the last `timescale` directive before it, and 1 ns where there is none or a `resetall` stands after it.
    pub fn units(&self) -> &[u64]
        ensures all { result.now ≡ self.now.units }
        ensures one_each { length self.now.units ≡ module_count self.now.tokens }
    {
        &self.units
    }

    /// The unit of time that holds at the end of the text, in femtoseconds (IEEE 1364-2005, clause 19.8).
    pub fn unit(&self) -> u64
        ensures { result ≡ self.now.unit }
    {
        self.unit
    }

    /// The least precision of all `timescale` directives, in femtoseconds; 1 ns where there is none.
    pub fn step(&self) -> u64
        ensures { result ≡ self.now.step }
    {
        self.step
    }
}
