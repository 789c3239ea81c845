//! What a part of a text gives: its value, or the first rule that is broken in it.

ghost use Rattle.std.specs.Prelude.{◌≡◌};
ghost use Rattle.v_flat.specs.Scope.Found.{EachIs, ForValue, both, broken, ended, followed, lost, needs, noted, settled, wants};

use crate::scope::{Broken, ElabRule, earlier};
use v_syntax::TokenNumber;

/// What is found, and what is broken first.
#[derive(Drop)]
pub enum Found<A> {
    /// No rule is broken.
    Sound(A),
    /// A rule is broken, but the value is known, so that further rules can be asked.
    Noted(Broken, A),
    /// A rule is broken, and there is no value.
    Lost(Broken),
}

impl<A: Drop> Found<A> {
    /// Nothing, since this rule is broken at this token.
    pub fn broken(rule: ElabRule, place: TokenNumber) -> Found<A>
        ensures { result ≡ broken rule place }
    {
        Found::Lost(Broken { rule, place })
    }

    /// A rule is broken too.
    pub fn noted(self, fault: Broken) -> Found<A>
        ensures { result ≡ noted fault self }
    {
        match self {
            Found::Sound(a) => Found::Noted(fault, a),
            Found::Noted(other, a) => Found::Noted(earlier(fault, other), a),
            Found::Lost(other) => Found::Lost(earlier(fault, other)),
        }
    }

    /// A rule is broken too, and without it there is no value.
    pub fn lost(self, fault: Broken) -> Found<A>
        ensures { result ≡ lost fault self }
    {
        match self {
            Found::Sound(_value) => Found::Lost(fault),
            Found::Noted(other, _value) => Found::Lost(earlier(fault, other)),
            Found::Lost(other) => Found::Lost(earlier(fault, other)),
        }
    }

    /// The rule holds only where the test does.
    pub fn wants(self, holds: bool, rule: ElabRule, place: TokenNumber) -> Found<A>
        ensures { result ≡ wants holds rule place self }
    {
        if holds {
            self
        } else {
            self.noted(Broken { rule, place })
        }
    }

    /// The rule holds only where the test does, and there is a value only where the rule holds.
    pub fn needs(self, holds: bool, rule: ElabRule, place: TokenNumber) -> Found<A>
        ensures { result ≡ needs holds rule place self }
    {
        if holds {
            self
        } else {
            self.lost(Broken { rule, place })
        }
    }

    /// What the call makes of the value, where there is one; the same rules are broken.
    pub fn each<B, F: FnOnce(A) -> B>(self, make: F) -> Found<B>
        requires { ForValue (F.pre make) self }
        ensures { EachIs (F.post make) self result }
    {
        match self {
            Found::Sound(a) => Found::Sound(make(a)),
            Found::Noted(fault, a) => Found::Noted(fault, make(a)),
            Found::Lost(fault) => Found::Lost(fault),
        }
    }

    /// The value counts only where no rule is broken.
    pub fn settled(self) -> Found<A>
        ensures { result ≡ settled self }
    {
        match self {
            Found::Noted(fault, _value) => Found::Lost(fault),
            other => other,
        }
    }

    /// The end of an item: the value where no rule is broken, or else the rule that is broken first.
    pub fn ended(self) -> Result<A, Broken>
        ensures { result ≡ ended self }
    {
        match self {
            Found::Sound(a) => Ok(a),
            Found::Noted(fault, _value) => Err(fault),
            Found::Lost(fault) => Err(fault),
        }
    }

    /// Both, with all that is broken in either.
    pub fn both<B: Drop>(self, other: Found<B>) -> Found<(A, B)>
        ensures { result ≡ both self other }
    {
        match self {
            Found::Sound(a) => match other {
                Found::Sound(b) => Found::Sound((a, b)),
                Found::Noted(fault, b) => Found::Noted(fault, (a, b)),
                Found::Lost(fault) => Found::Lost(fault),
            },
            Found::Noted(first, a) => match other {
                Found::Sound(b) => Found::Noted(first, (a, b)),
                Found::Noted(fault, b) => Found::Noted(earlier(first, fault), (a, b)),
                Found::Lost(fault) => Found::Lost(earlier(first, fault)),
            },
            Found::Lost(first) => match other {
                Found::Sound(_value) => Found::Lost(first),
                Found::Noted(fault, _value) => Found::Lost(earlier(first, fault)),
                Found::Lost(fault) => Found::Lost(earlier(first, fault)),
            },
        }
    }

    /// Both, where what stands behind counts only where this one has a value: what is broken there then says nothing more.
    pub fn followed_by<B: Drop>(self, other: Found<B>) -> Found<(A, B)>
        ensures { result ≡ followed self other }
    {
        match self {
            Found::Lost(first) => Found::Lost(first),
            valued => valued.both(other),
        }
    }
}
