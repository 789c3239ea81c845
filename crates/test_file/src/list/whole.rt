//! What is known of a whole file before its tests are gathered.

ghost use Rattle.std.specs.Prelude.{◌≡◌, is_some, map};
ghost use Rattle.py_syntax.specs.BlockTrees.{view_module_item};
ghost use Rattle.name_table.specs.Places.{first_place};
ghost use Rattle.test_meaning.specs.Rules.File.{file_of, is_made_name};
ghost use Rattle.test_meaning.specs.Rules.Names.{Name};

use name_table::Names;
use test_refusal::values::ModuleValues;

/// What is known of a whole file before its tests are gathered.
#[derive(Drop)]
pub(crate) struct Whole<'a, 'b> {
    /// Its items, and what its constants stand for.
    pub values: &'a ModuleValues<'b>,
    /// The names of the functions that its factories are for. Their places don't matter.
    pub made: &'a Names,
    ghost are_made: { (n : Name) → is_some (first_place made.now n) ≡ is_made_name (file_of (map view_module_item values.now.items.now)) n },
}
