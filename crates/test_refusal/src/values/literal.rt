//! Literals of constants.

ghost use Rattle.std.specs.Prelude.{◌≡◌, map, option_copied};
ghost use Rattle.py_syntax.specs.BlockTrees.{view_module_item};
ghost use Rattle.test_refusal.specs.Values.Literals.{literal_at, literal_of};

use py_syntax::{Const, ModuleItem, ModuleLine};

/// The literal, or the name, that an item gives to a constant; none of another item.
fn literal(item: &ModuleItem) -> Option<&Const>
    ensures { option_copied result ≡ literal_of (view_module_item item.now) }
{
    match item {
        ModuleItem::Line { line, .. } => match line {
            ModuleLine::Constant(_, constant) => Some(constant),
            _ => None,
        },
        _ => None,
    }
}

/// That of the item at a place, from 0.
pub(crate) fn literal_at(items: &[ModuleItem], place: usize) -> Option<&Const>
    ensures { option_copied result ≡ literal_at (map view_module_item items.now) place }
{
    let item = items.get(place)?;
    literal(item)
}
