//! What is known of a whole module.

ghost use Rattle.std.specs.Prelude.{◌≡◌, map};
ghost use Rattle.std.specs.List.{position_from};
ghost use Rattle.py_syntax.specs.BlockTrees.{view_module_item};
ghost use Rattle.test_names.specs.Definitions.Definitions.{is_defined};
ghost use Rattle.test_names.specs.declared.definitions.item.Kind.TheVariants as kind;
ghost use Rattle.test_functions.specs.Numbers.{AreFunctionNumbers};
ghost use Rattle.name_table.specs.Places.{first_place};
ghost use Rattle.test_meaning.specs.Rules.Names.{Name};

use crate::FunctionNumbers;
use crate::expressions::CalledFunction;
use name_table::Names;
use test_names::scope::parameters_at;
use test_refusal::values::ModuleValues;

/// What is known of a whole module.
#[derive(Drop)]
pub(crate) struct Whole<'a, 'b> {
    /// Its items, and what its constants stand for.
    pub values: &'a ModuleValues<'b>,
    /// Of each function's name the number of the first item that defines it.
    pub places: &'a Names,
    /// Of each function's name its number among the functions.
    pub numbers: &'a FunctionNumbers,
    ghost are_places: { (n : Name)
        → first_place places.now n ≡ position_from (is_defined kind.Function n) 0 (map view_module_item values.now.items.now) },
    ghost are_numbers: { AreFunctionNumbers (map view_module_item values.now.items.now) numbers.now },
}

impl Whole<'_, '_> {
    ghost use Rattle.std.specs.Prelude.{◌≡◌, None, MatchOption};
    ghost use Rattle.test_functions.specs.Expressions.Called.{IsCalled};
    ghost use Rattle.test_functions.specs.Inside.{file_of_whole};
    ghost use Rattle.test_meaning.specs.Rules.File.{function};

    /// The function of this name; none where the module has none.
    pub(crate) fn function(&self, name: &[u8]) -> Option<CalledFunction<'_>>
        ensures { MatchOption result (function (file_of_whole self.now) name.now ≡ None) (IsCalled (function (file_of_whole self.now) name.now)) }
    {
        let number = self.numbers.numbers.find(name)?;
        let place = self.places.find(name)?;
        let parameters = parameters_at(self.values.items, place)?;
        Some(CalledFunction { number, parameters })
    }
}
