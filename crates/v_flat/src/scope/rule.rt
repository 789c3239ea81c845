//! The rules of elaboration, and which of two broken ones counts.

ghost use Rattle.std.specs.Prelude.{◌≡◌};
ghost use Rattle.v_flat.specs.Scope.Rules.{earlier, number_of};

use v_syntax::TokenNumber;

/// A rule that a design may break, in the order of their table.
#[derive(Clone, Copy, Debug, PartialEq, Eq)]
pub enum ElabRule {
    /// There is no module of the top's name, or not exactly one that no module instantiates.
    NoTop,
    /// An instance of a module that isn't there (IEEE 1364-2005, clause 12.1.2).
    UnknownModule,
    /// An instance inside itself.
    RecursiveInstance,
    /// A second module of a name, or a second declaration of a name in a module (clause 4.11).
    DuplicateName,
    /// A name that is not declared.
    UnknownName,
    /// A port or a parameter that isn't there or is given twice, or one that can't be what it is declared to be
    /// (clauses 12.2.2 and 12.3).
    BadPort,
    /// An expression that has to be a constant and isn't (clause 5), or has an x or z digit.
    NotConstant,
    /// A select against the declared range, or of what has no such select (clause 5.2).
    BadRange,
    /// More than 128 digits.
    TooWide,
    /// A digit of a net that is driven twice.
    TwoDrivers,
    /// A target that can't be assigned there (clauses 6.1.2 and 9.2).
    BadTarget,
    /// A loop of more than 4,096 turns.
    LoopTooLong,
    /// Too many signals, processes, instances or levels of instances.
    TooMany,
    /// A delay of an assignment whose number is 0 or has an x or z digit, or that is no whole number of steps or too long (clauses 9.2.2 and
    /// 19.8).
    BadDelay,
}

/// A broken rule, and where.
#[derive(Clone, Copy, Debug, PartialEq, Eq)]
pub struct Broken {
    pub rule: ElabRule,
    /// The token at which it is broken.
    pub place: TokenNumber,
}

/// The place of a rule in the table, from 1.
fn number_of(rule: ElabRule) -> u8
    ensures { result ≡ number_of rule }
{
    match rule {
        ElabRule::NoTop => 1,
        ElabRule::UnknownModule => 2,
        ElabRule::RecursiveInstance => 3,
        ElabRule::DuplicateName => 4,
        ElabRule::UnknownName => 5,
        ElabRule::BadPort => 6,
        ElabRule::NotConstant => 7,
        ElabRule::BadRange => 8,
        ElabRule::TooWide => 9,
        ElabRule::TwoDrivers => 10,
        ElabRule::BadTarget => 11,
        ElabRule::LoopTooLong => 12,
        ElabRule::TooMany => 13,
        ElabRule::BadDelay => 14,
    }
}

/// The one of two broken rules that counts: the earlier by its place, and at one place the one that stands first in the
/// table.
pub fn earlier(a: Broken, b: Broken) -> Broken
    ensures { result ≡ earlier a b }
{
    if b.place.number() < a.place.number() {
        b
    } else if a.place.number() < b.place.number() {
        a
    } else if number_of(b.rule) < number_of(a.rule) {
        b
    } else {
        a
    }
}
