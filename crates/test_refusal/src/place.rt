//! An item of a file in its place.

ghost use Rattle.std.specs.Prelude.{◌≡◌, ◌<◌, ◌+◌, drop, length};

use crate::Whole;
use crate::item::number;
use py_syntax::ModuleItem;
use test_meaning::rules::{FileRule, Refusal};
use test_names::scope::FileScope;

/// The items behind one of some.
fn behind(items: &[ModuleItem], place: usize) -> &[ModuleItem]
    requires { place < length items.now }
    ensures { result.now ≡ drop (place + 1) items.now }
{
    &items[place + 1..]
}

/// An item of a file in its place.
#[derive(Drop)]
pub(crate) struct Place<'a, 'b> {
    /// The file.
    pub whole: &'a Whole<'b>,
    /// How many items stand above.
    pub above: usize,
    /// The item.
    pub item: &'a ModuleItem,
    /// The items below.
    pub below: &'a [ModuleItem],
}

impl<'a, 'b> Place<'a, 'b> {
    ghost use Rattle.std.specs.Prelude.{◌≡◌, ◌<◌, Some, length};
    ghost use Rattle.test_meaning.specs.Rules.File.{line_of};
    ghost use Rattle.test_meaning.specs.Rules.Rules.{refused_at};
    ghost use Rattle.test_refusal.specs.Places.{IsScopeOf, Stands, place_of};

    /// The item with so many others above.
    pub(crate) fn of(whole: &'a Whole<'b>, above: usize) -> Place<'a, 'b>
        requires { above < length whole.now.file.now.items.items }
        ensures whole { result.whole.now ≡ whole.now }
        ensures above { result.above ≡ above }
        ensures stands { Stands result }
    {
        let items = &whole.file.items;
        Place {
            whole,
            above,
            item: &items[above],
            below: behind(items, above),
        }
    }

    /// The scope of the item's own line.
    pub(crate) fn scope(&self) -> FileScope<'b>
        ensures { IsScopeOf self.now result }
    {
        FileScope {
            whole: self.whole.file,
            tables: self.whole.tables,
            above: self.above,
            locals: self.whole.no_names,
        }
    }

    /// The refusal of the item's own line, which breaks this rule.
    pub(crate) fn refusal(&self, rule: FileRule) -> Refusal
        ensures { Some result ≡ refused_at (line_of (place_of self.now).item) (Some rule) }
    {
        Refusal {
            rule,
            line: number(self.item),
        }
    }
}
