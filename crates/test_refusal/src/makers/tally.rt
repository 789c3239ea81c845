//! How many tests stand at an item.

ghost use Rattle.std.specs.Prelude.{◌≡◌, if◌then◌else◌};

use crate::makers::Makers;
use py_syntax::{ModuleItem, ModuleLine};

/// One test, or none.
fn one_or_none(is_test: bool) -> usize
    ensures { result ≡ (if is_test then 1 else 0) }
{
    if is_test { 1 } else { 0 }
}

impl Makers {
    ghost use Rattle.std.specs.Prelude.{◌≡◌, List, ℕ};
    ghost use Rattle.py_syntax.specs.BlockTrees as tree;
    ghost use Rattle.py_syntax.specs.BlockTrees.{view_module_item};
    ghost use Rattle.py_syntax.specs.ModuleTrees.{view_module_line};
    ghost use Rattle.test_meaning.specs.Rules.File.{File, file_of};
    ghost use Rattle.test_meaning.specs.Rules.Rules.{tests_at};
    ghost use Rattle.test_refusal.specs.Makers.SoFar.{IsTestAt, StandsFor, cut};

    /// How many tests a line generates, where one above the limit stands for all that are more.
    fn tests_of_line(&self, line: &ModuleLine) -> usize
        ensures { (f : File) (xs : List tree.ModuleItem) (l : ℕ) → StandsFor xs self.now
            → result ≡ cut (tests_at f (file_of xs) (tree.LineAt l (view_module_line line.now))) }
    {
        match line {
            ModuleLine::GenerateTests(factory, ..) => self.case_count(factory.bytes()),
            _ => 0,
        }
    }

    /// How many tests stand at the item below, which may be a function that is a test: one above the limit stands for all that are more. A
    /// factory generates a test for each choice of one value for each option (cocotb 1.8, `TestFactory`).
    pub fn tests_at(&self, is_test: bool, item: &ModuleItem) -> usize
        ensures { (f : File) (xs : List tree.ModuleItem) → StandsFor xs self.now → IsTestAt f xs (view_module_item item.now) is_test
            → result ≡ cut (tests_at f (file_of xs) (view_module_item item.now)) }
    {
        match item {
            ModuleItem::Docstring { .. } => 0,
            ModuleItem::Line { line, .. } => self.tests_of_line(line),
            ModuleItem::Function { .. } => one_or_none(is_test),
        }
    }
}
