//! The rule that one use breaks.

ghost use Rattle.std.specs.Prelude.{◌≡◌};
ghost use Rattle.test_names.specs.Scope.Judged.{judged};

use test_meaning::rules::FileRule;

/// The rule that a use breaks by its name, which is known or isn't, or by its place. The name counts first.
pub(crate) fn judged(is_known: bool, is_placed: bool) -> Option<FileRule>
    ensures { result ≡ judged is_known is_placed }
{
    if !is_known {
        Some(FileRule::UnknownName)
    } else if !is_placed {
        Some(FileRule::Misplaced)
    } else {
        None
    }
}
