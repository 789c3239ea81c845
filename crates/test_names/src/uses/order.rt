//! Which of two rules counts.

ghost use Rattle.std.specs.Prelude.{◌≡◌};
ghost use Rattle.test_names.specs.Uses.Answer.{first_of};

use test_meaning::rules::FileRule;

/// The rule of two that counts on one line, each of which may be none.
pub fn first_of(one: Option<FileRule>, other: Option<FileRule>) -> Option<FileRule>
    ensures { result ≡ first_of one other }
{
    match (one, other) {
        (None, rule) | (rule, None) => rule,
        (Some(rule), Some(second)) => Some(rule.min(second)),
    }
}
