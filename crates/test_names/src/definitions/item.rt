//! What an item defines.

ghost use Rattle.std.specs.Prelude.{◌≡◌, None, Some, MatchOption};
ghost use Rattle.py_syntax.specs.BlockTrees.{view_module_item};
ghost use Rattle.py_syntax.specs.ModuleTrees.{view_module_line};
ghost use Rattle.test_meaning.specs.Rules.File.{names_of};
ghost use Rattle.test_names.specs.Definitions.Definitions.{defined, line_defined};

use port_io::Name;
use py_syntax::{ModuleItem, ModuleLine};
use std::slice::from_ref;

/// A kind of definitions.
#[derive(Clone, Copy, Debug, PartialEq, Eq)]
pub enum Kind {
    /// `name = constant`
    Constant,
    /// `async def name(..):`
    Function,
    /// `name = TestFactory(function)`
    Factory,
}

/// The name that a line outside of functions defines as one of this kind.
fn line_defined(kind: Kind, line: &ModuleLine) -> Option<&[u8]>
    ensures { MatchOption result (line_defined kind (view_module_line line.now) ≡ None)
        (λ found. line_defined kind (view_module_line line.now) ≡ Some found.now) }
{
    match (line, kind) {
        (ModuleLine::Constant(name, _), Kind::Constant) => Some(name.bytes()),
        (ModuleLine::Factory(name, _), Kind::Factory) => Some(name.bytes()),
        _ => None,
    }
}

/// The name that an item defines as one of this kind.
pub fn defined(kind: Kind, item: &ModuleItem) -> Option<&[u8]>
    ensures { MatchOption result (defined kind (view_module_item item.now) ≡ None)
        (λ found. defined kind (view_module_item item.now) ≡ Some found.now) }
{
    match (item, kind) {
        (ModuleItem::Line { line, .. }, _) => line_defined(kind, line),
        (ModuleItem::Function { name, .. }, Kind::Function) => Some(name.bytes()),
        _ => None,
    }
}

/// The names that an item defines, an import's among them.
pub fn names_of(item: &ModuleItem) -> &[Name]
    ensures { result.now ≡ names_of (view_module_item item.now) }
{
    match item {
        ModuleItem::Line { line, .. } => match line {
            ModuleLine::FromImport(_, names) => names,
            ModuleLine::Import(name) => from_ref(name),
            ModuleLine::Constant(name, _) => from_ref(name),
            ModuleLine::Factory(name, _) => from_ref(name),
            _ => &[],
        },
        ModuleItem::Function { name, .. } => from_ref(name),
        ModuleItem::Docstring { .. } => &[],
    }
}
