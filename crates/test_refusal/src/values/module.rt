//! What the constants of a module stand for.

ghost use Rattle.std.specs.Prelude.{map};
ghost use Rattle.py_syntax.specs.BlockTrees.{view_module_item};
ghost use Rattle.test_refusal.specs.Values.Literals.{AreLiteralPlaces};

use crate::settings::Values;
use crate::values::literal::literal_at;
use name_table::Names;
use py_syntax::{Const, ModuleItem};

/// What the constants of a module stand for.
#[derive(Clone, Copy)]
pub struct ModuleValues<'a> {
    /// The items of the module.
    pub items: &'a [ModuleItem],
    /// Of each constant the place of the item whose literal it stands for, as [`literal_places`](crate::values::literal_places) finds it.
    pub places: &'a Names,
    ghost are_places: { AreLiteralPlaces (map view_module_item items.now) places.now },
}

impl ModuleValues<'_> {
    ghost use Rattle.std.specs.Prelude.{◌≡◌, map, option_copied, option_map};
    ghost use Rattle.py_syntax.specs.BlockTrees.{view_module_item};
    ghost use Rattle.test_meaning.specs.Rules.File.{file_of, fixed_of};

    /// The value of the constant of this name; none where the module has no such constant.
    pub fn fixed(&self, name: &[u8]) -> Option<&Const>
        ensures { option_copied result ≡ option_map (λ k. k.value) (fixed_of (file_of (map view_module_item self.now.items.now)).constants name.now) }
    {
        let place = self.places.find(name)?;
        literal_at(self.items, place)
    }
}

impl Values for ModuleValues<'_> {
    ghost use Rattle.std.specs.Prelude.{map};
    ghost use Rattle.py_syntax.specs.BlockTrees.{view_module_item};
    ghost use Rattle.test_meaning.specs.Rules.File.{file_of};

    ghost file = { λ v. file_of (map view_module_item v.items.now) };

    fn value_of<'b>(&'b self, constant: &'b Const) -> &'b Const {
        match constant {
            Const::Named(name) => self.fixed(name.bytes()).unwrap_or(constant),
            _ => constant,
        }
    }
}
