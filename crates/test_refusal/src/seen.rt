//! What the items above a line have.

use crate::makers::Makers;
use name_table::Names;
use std::alloc::Global;
use test_meaning::rules::Refusal;

/// What the items above a line have.
#[derive(Drop)]
pub(crate) struct Seen {
    /// The names that they define. Their places don't matter.
    pub names: Names,
    /// What they add to factories.
    pub makers: Makers,
    /// How many tests stand there, where one above the limit stands for all that are more.
    pub tests: usize,
    /// Whether a test outside of factories stands there, or tests are generated, if only none.
    pub has_tests: bool,
    /// Whether the last of them is a decorator.
    pub is_decorated: bool,
}

/// What the pass comes to at an item.
#[derive(Drop)]
pub(crate) enum Step {
    /// No line so far breaks a rule.
    On(Seen),
    /// The first line that does, and the rule.
    Refused(Refusal),
}

impl Seen {
    ghost use Rattle.std.specs.Prelude.{[]};
    ghost use Rattle.test_meaning.specs.Rules.File.{File};
    ghost use Rattle.test_refusal.specs.Pass.{IsSeen};

    /// Nothing stands above.
    pub(crate) fn nothing(alloc: Global) -> Seen
        ensures { (f : File) → IsSeen f [] result }
    {
        Seen {
            names: Names::new(alloc),
            makers: Makers::new(alloc),
            tests: 0,
            has_tests: false,
            is_decorated: false,
        }
    }
}
