//! What is known of a whole file before the pass.

ghost use Rattle.std.specs.Prelude.{◌≡◌, is_some};
ghost use Rattle.py_syntax.specs.BlockTrees.{view_module};
ghost use Rattle.name_table.specs.Places.{first_place, nowhere};
ghost use Rattle.test_meaning.specs.Rules.File.{file_of, is_made_name};
ghost use Rattle.test_meaning.specs.Rules.Names.{Name};
ghost use Rattle.test_names.specs.Scope.Tables.{AreTables};
ghost use Rattle.test_refusal.specs.Values.Literals.{AreLiteralPlaces};

use name_table::Names;
use py_syntax::Module;
use test_names::scope::Tables;

/// What is known of a whole file before the pass.
#[derive(Drop)]
pub(crate) struct Whole<'a> {
    /// The file.
    pub file: &'a Module,
    /// Where its names are defined.
    pub tables: &'a Tables,
    /// Of each of its constants the place of the item whose literal it stands for.
    pub places: &'a Names,
    /// The names of the functions that its factories are for. Their places don't matter.
    pub made: &'a Names,
    /// No name.
    pub no_names: &'a Names,
    ghost are_tables: { AreTables (view_module file.now) tables.now },
    ghost are_places: { AreLiteralPlaces (view_module file.now) places.now },
    ghost are_made: { (n : Name) → is_some (first_place made.now n) ≡ is_made_name (file_of (view_module file.now)) n },
    ghost is_nothing: { first_place no_names.now ≡ nowhere },
}

impl Whole<'_> {
    ghost use Rattle.std.specs.Prelude.{◌≡◌};
    ghost use Rattle.test_meaning.specs.Rules.File.{is_made_name};
    ghost use Rattle.test_refusal.specs.Places.{file_of_whole};

    /// Whether a factory is for the function of this name.
    pub(crate) fn is_made(&self, function: &[u8]) -> bool
        ensures { result ≡ is_made_name (file_of_whole self.now) function.now }
    {
        self.made.find(function).is_some()
    }
}
