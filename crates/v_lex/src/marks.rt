//! Operators and marks.

ghost use Rattle.std.specs.Prelude.{◌≡◌, ◌≤◌, length, Option, IfSome};
ghost use Rattle.v_syntax.specs.Marks.{mark_at, mark_spelling};

use v_syntax::{MARKS, Mark};

/// The longest mark at the front of the text.
#[tactic(auto, unfolding(v_syntax::specs::Marks::mark_at))]
pub fn mark_at(text: &[u8]) -> Option<Mark>
    ensures is { result ≡ mark_at text.now }
    ensures within { IfSome result (λ m. length (mark_spelling m) ≤ length text.now) }
{
    MARKS
        .iter()
        .copied()
        .find(|mark| text.starts_with(mark.spelling()))
}
