//! Decorators, and the parameters of functions.

ghost use Rattle.std.specs.Prelude.{◌≡◌, List, map};
ghost use Rattle.py_syntax.specs.BlockTrees as tree;
ghost use Rattle.py_syntax.specs.BlockTrees.{view_module_item};
ghost use Rattle.test_meaning.specs.Rules.File.{further, is_decorator, is_function, starts_with_function};
ghost use Rattle.test_meaning.specs.Rules.Rules.{have_defaults, is_stray, lacks_parameters};

use py_syntax::{ModuleItem, ModuleLine, Parameter};

/// Whether an item is a decorator.
pub fn is_decorator(item: &ModuleItem) -> bool
    ensures { result ≡ is_decorator (view_module_item item.now) }
{
    match item {
        ModuleItem::Line { line, .. } => matches!(line, ModuleLine::Test(_)),
        _ => false,
    }
}

/// Whether an item is a function.
fn is_function(item: &ModuleItem) -> bool
    ensures { result ≡ is_function (view_module_item item.now) }
{
    matches!(item, ModuleItem::Function { .. })
}

/// Whether the first of these items is a function.
fn starts_with_function(items: &[ModuleItem]) -> bool
    ensures { result ≡ starts_with_function (map view_module_item items.now) }
{
    match items {
        [first, ..] => is_function(first),
        [] => false,
    }
}

/// Whether an item is a decorator, and what stands below it doesn't begin with a function.
pub fn is_stray(item: &ModuleItem, below: &[ModuleItem]) -> bool
    ensures { (above : List tree.ModuleItem)
        → result ≡ is_stray (record { item = view_module_item item.now; above = above; below = map view_module_item below.now }) }
{
    is_decorator(item) && !starts_with_function(below)
}

/// Whether all parameters have defaults.
fn have_defaults(parameters: &[Parameter]) -> bool
    ensures { result ≡ have_defaults parameters.now }
{
    for parameter in parameters {
        if parameter.default.is_none() {
            return false;
        }
    }
    true
}

/// The parameters behind the first.
pub fn further(parameters: &[Parameter]) -> &[Parameter]
    ensures { result.now ≡ further parameters.now }
{
    match parameters {
        [_, others @ ..] => others,
        [] => &[],
    }
}

/// Whether a function hasn't the parameters that it needs: a first one where it is decorated or a factory's, and none without a default behind
/// that where it is decorated and no factory's.
pub fn lacks_parameters(is_decorated: bool, is_made: bool, parameters: &[Parameter]) -> bool
    ensures { result ≡ lacks_parameters is_decorated is_made parameters.now }
{
    ((is_decorated || is_made) && parameters.is_empty())
        || (is_decorated && !is_made && !have_defaults(further(parameters)))
}
