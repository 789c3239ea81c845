//! The factories above a line, and those whose tests are generated.

ghost use Rattle.std.specs.Prelude.{◌≡◌, ◌++◌, ◌∷◌, [], None, Some, List, MatchOption, IfOk};
ghost use Rattle.py_syntax.specs.BlockTrees as tree;
ghost use Rattle.py_syntax.specs.BlockTrees.{view_module_item};
ghost use Rattle.test_meaning.specs.Rules.File.{factory_of};
ghost use Rattle.test_file.specs.List.SoFar.{AreFactories, generation_of};

use crate::list::Table;
use port_io::{Name, NoMemory};
use py_syntax::{ModuleItem, ModuleLine};
use std::alloc::Global;

/// A factory, and the function that it is for.
#[derive(Clone, Copy)]
struct Maker<'a> {
    pub name: &'a [u8],
    pub function: &'a [u8],
}

/// A factory whose tests are generated, with what stands before and behind the function's name in theirs.
#[derive(Clone, Copy)]
pub(crate) struct Generation<'a> {
    pub factory: &'a [u8],
    pub prefix: &'a Option<Name>,
    pub postfix: &'a Option<Name>,
}

/// The factory that an item makes; none of another item.
fn maker_at(item: &ModuleItem) -> Option<Maker<'_>>
    ensures { MatchOption result (factory_of (view_module_item item.now) ≡ None)
        (λ m. factory_of (view_module_item item.now) ≡ Some (record { name = m.name.now; function = m.function.now })) }
{
    match item {
        ModuleItem::Line { line, .. } => match line {
            ModuleLine::Factory(name, function) => Some(Maker {
                name: name.bytes(),
                function: function.bytes(),
            }),
            _ => None,
        },
        _ => None,
    }
}

/// The factory whose tests an item generates; none of another item.
pub(crate) fn generation_at(item: &ModuleItem) -> Option<Generation<'_>>
    ensures { MatchOption result (generation_of (view_module_item item.now) ≡ None)
        (λ g. generation_of (view_module_item item.now)
        ≡ Some (record { factory = g.factory.now; prefix = g.prefix.now; postfix = g.postfix.now })) }
{
    match item {
        ModuleItem::Line { line, .. } => match line {
            ModuleLine::GenerateTests(factory, prefix, postfix) => Some(Generation {
                factory: factory.bytes(),
                prefix,
                postfix,
            }),
            _ => None,
        },
        _ => None,
    }
}

/// Factories with that of an item, if it makes one, by its name. Only want of memory is an error.
pub(crate) fn with_maker<'a>(
    alloc: Global,
    factories: Table<&'a [u8]>,
    item: &'a ModuleItem,
) -> Result<Table<&'a [u8]>, NoMemory>
    ensures { IfOk result (λ after. (xs : List tree.ModuleItem) → AreFactories xs factories.entry
        → AreFactories (xs ++ view_module_item item.now ∷ []) after) }
{
    match maker_at(item) {
        Some(maker) => factories.with(alloc, maker.name, maker.function),
        None => Ok(factories),
    }
}
