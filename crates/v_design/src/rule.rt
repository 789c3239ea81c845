//! The rules by which the text of a design is refused.

ghost use Rattle.std.specs.Prelude.{◌≡◌};
ghost use Rattle.v_design.specs.Words.{elaboration_word, rule_word};

use v_flat::scope::ElabRule;

/// A rule by which the text of a design is refused.
#[derive(Clone, Copy, Debug, PartialEq, Eq)]
pub enum DesignRule {
    /// A byte that begins no token.
    BadByte,
    /// A number whose size is 0 or over 128, with no digit or a digit that isn't of its base, or whose decimal value is over 2 to the
    /// power of 128, less 1 (IEEE 1364-2005, clause 3.5).
    BadNumber,
    /// A text that isn't closed on its line, or a comment that isn't closed (clauses 3.3 and 3.6).
    UnclosedText,
    /// A directive that isn't known, is broken, or stands where it may not, or a conditional that stays open (clause 19).
    Directive,
    /// A token that goes on no text of the grammar (annex A). The end of the text counts as a token.
    Syntax,
    /// A token that goes on only texts of the grammar that are too high.
    TooDeep,
    /// A rule of elaboration (clause 12).
    Elaboration(ElabRule),
}

/// The name of a rule of elaboration.
fn elaboration_name(rule: ElabRule) -> &'static [u8]
    ensures { result.now ≡ elaboration_word rule }
{
    match rule {
        ElabRule::NoTop => b"NoTop",
        ElabRule::UnknownModule => b"UnknownModule",
        ElabRule::RecursiveInstance => b"RecursiveInstance",
        ElabRule::DuplicateName => b"DuplicateName",
        ElabRule::UnknownName => b"UnknownName",
        ElabRule::BadPort => b"BadPort",
        ElabRule::NotConstant => b"NotConstant",
        ElabRule::BadRange => b"BadRange",
        ElabRule::TooWide => b"TooWide",
        ElabRule::TwoDrivers => b"TwoDrivers",
        ElabRule::BadTarget => b"BadTarget",
        ElabRule::LoopTooLong => b"LoopTooLong",
        ElabRule::TooMany => b"TooMany",
        ElabRule::BadDelay => b"BadDelay",
    }
}

impl DesignRule {
    /// The name of the rule, as it stands in the line of a refusal.
    pub fn name(self) -> &'static [u8]
        ensures { result.now ≡ rule_word self }
    {
        match self {
            DesignRule::BadByte => b"BadByte",
            DesignRule::BadNumber => b"BadNumber",
            DesignRule::UnclosedText => b"UnclosedText",
            DesignRule::Directive => b"Directive",
            DesignRule::Syntax => b"Syntax",
            DesignRule::TooDeep => b"TooDeep",
            DesignRule::Elaboration(rule) => elaboration_name(rule),
        }
    }
}
