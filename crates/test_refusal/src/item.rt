//! What an item is.

ghost use Rattle.std.specs.Prelude.{◌≡◌, false, MatchOption};
ghost use Rattle.py_syntax.specs.BlockTrees.{view_module_item};
ghost use Rattle.py_syntax.specs.Line.{physical_line};
ghost use Rattle.test_refusal.specs.Items.Functions.{function_name};
ghost use Rattle.test_meaning.specs.Rules.File.{File, is_decorator, is_function, line_of, parameters_of};
ghost use Rattle.test_meaning.specs.Rules.Rules.{are_right_settings, has_right_options, is_generation};

use py_syntax::{LineNumber, ModuleItem, ModuleLine, Parameter, Setting};

/// The number of an item's own line.
pub(crate) fn number(item: &ModuleItem) -> LineNumber
    ensures { result ≡ physical_line (line_of (view_module_item item.now)) }
{
    match item {
        ModuleItem::Docstring { number } => *number,
        ModuleItem::Line { number, .. } => *number,
        ModuleItem::Function { number, .. } => *number,
    }
}

/// Whether an item is a function.
pub(crate) fn is_function(item: &ModuleItem) -> bool
    ensures { result ≡ is_function (view_module_item item.now) }
{
    matches!(item, ModuleItem::Function { .. })
}

/// The name of a function; an empty one of another item.
pub(crate) fn function_name(item: &ModuleItem) -> &[u8]
    ensures { result.now ≡ function_name (view_module_item item.now) }
{
    match item {
        ModuleItem::Function { name, .. } => name.bytes(),
        _ => &[],
    }
}

/// The parameters of a function; none of another item.
pub(crate) fn parameters_of(item: &ModuleItem) -> &[Parameter]
    ensures { result.now ≡ parameters_of (view_module_item item.now) }
{
    match item {
        ModuleItem::Function { parameters, .. } => parameters,
        _ => &[],
    }
}

/// Whether an item generates the tests of a factory.
pub(crate) fn is_generation(item: &ModuleItem) -> bool
    ensures { result ≡ is_generation (view_module_item item.now) }
{
    match item {
        ModuleItem::Line { line, .. } => matches!(line, ModuleLine::GenerateTests(..)),
        _ => false,
    }
}

/// The options of a decorator; none of another item.
pub(crate) fn settings(item: &ModuleItem) -> Option<&[Setting]>
    ensures { MatchOption result (is_decorator (view_module_item item.now) ≡ false)
        (λ found. (f above : File) → has_right_options f above (view_module_item item.now) ≡ are_right_settings f found.now) }
{
    match item {
        ModuleItem::Line { line, .. } => match line {
            ModuleLine::Test(settings) => Some(settings),
            _ => None,
        },
        _ => None,
    }
}
