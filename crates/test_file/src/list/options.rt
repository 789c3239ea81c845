//! The options of factories.

ghost use Rattle.std.specs.Prelude.{◌≡◌, ◌≤◌, ◌++◌, ◌∷◌, [], None, Some, List, map, MatchOption, IfOk};
ghost use Rattle.py_syntax.specs.BlockTrees as tree;
ghost use Rattle.py_syntax.specs.BlockTrees.{view_module_item};
ghost use Rattle.test_meaning.specs.Factory.Options.{choice, choices};
ghost use Rattle.test_meaning.specs.Factory.Product.{case_count, case_limit};
ghost use Rattle.test_meaning.specs.Rules.File.{File, value_in};
ghost use Rattle.test_file.specs.List.SoFar.{AreOptions, choice_in, extension_of};

use crate::list::Table;
use port_io::{Name, NoMemory};
use py_syntax::{Const, ModuleItem, ModuleLine};
use std::alloc::Global;
use test_meaning::factory::{Factory, copied};
use test_refusal::settings::Values;

/// An option of a factory, as its line says it.
#[derive(Clone, Copy)]
pub(crate) struct AddedOption<'a> {
    pub name: &'a [u8],
    /// Its values, among them names of constants.
    pub values: &'a [Const],
}

/// An option that is added to a factory.
#[derive(Clone, Copy)]
struct Extension<'a> {
    pub factory: &'a [u8],
    pub option: AddedOption<'a>,
}

/// The option that an item adds to a factory; none of another item.
fn extension_at(item: &ModuleItem) -> Option<Extension<'_>>
    ensures { MatchOption result (extension_of (view_module_item item.now) ≡ None)
        (λ e. extension_of (view_module_item item.now)
        ≡ Some (record { factory = e.factory.now; option = e.option.name.now; values = e.option.values.now })) }
{
    match item {
        ModuleItem::Line { line, .. } => match line {
            ModuleLine::AddOption(factory, option, values) => Some(Extension {
                factory: factory.bytes(),
                option: AddedOption {
                    name: option.bytes(),
                    values,
                },
            }),
            _ => None,
        },
        _ => None,
    }
}

/// Options with that of an item, if it adds one, by its factory's name. Only want of memory is an error.
pub(crate) fn with_option<'a>(
    alloc: Global,
    options: Table<Vec<AddedOption<'a>>>,
    item: &'a ModuleItem,
) -> Result<Table<Vec<AddedOption<'a>>>, NoMemory>
    ensures { IfOk result (λ after. (f : File) (xs : List tree.ModuleItem) → AreOptions f xs options.entry
        → AreOptions f (xs ++ view_module_item item.now ∷ []) after) }
{
    match extension_at(item) {
        Some(extension) => options.with_more(alloc, extension.factory, extension.option),
        None => Ok(options),
    }
}

/// What constants stand for. Only want of memory is an error.
fn values_of<V: Values>(
    alloc: Global,
    values: &V,
    constants: &[Const],
) -> Result<Vec<Const>, NoMemory>
    ensures { IfOk result (λ made. made.items ≡ map (value_in (V.file values.now).constants) constants.now) }
{
    let mut made = Vec::new(alloc);
    for constant in constants {
        made.push(copied(alloc, values.value_of(constant))?)?;
    }
    Ok(made)
}

/// An option with the values of constants put in. Only want of memory is an error.
fn option_of<V: Values>(
    alloc: Global,
    values: &V,
    option: &AddedOption<'_>,
) -> Result<(Name, Vec<Const>), NoMemory>
    ensures { IfOk result (λ made. choice made ≡ choice_in (V.file values.now) option.now) }
{
    let name = Name::of(alloc, option.name)?;
    let values = values_of(alloc, values, option.values)?;
    Ok((name, values))
}

/// The options of a factory with the values of constants put in. Only want of memory is an error.
fn options_of<V: Values>(
    alloc: Global,
    values: &V,
    options: &[AddedOption<'_>],
) -> Result<Vec<(Name, Vec<Const>)>, NoMemory>
    ensures { IfOk result (λ made. choices made.items ≡ map (choice_in (V.file values.now)) options.now) }
{
    let mut made = Vec::new(alloc);
    for option in options {
        made.push(option_of(alloc, values, option)?)?;
    }
    Ok(made)
}

/// The factory with these options. Only want of memory is an error.
pub(crate) fn factory<V: Values>(
    alloc: Global,
    values: &V,
    options: &[AddedOption<'_>],
) -> Result<Factory, NoMemory>
    requires { case_count (map (choice_in (V.file values.now)) options.now) ≤ case_limit }
    ensures { IfOk result (λ made. made ≡ map (choice_in (V.file values.now)) options.now) }
{
    let options = options_of(alloc, values, options)?;
    Ok(Factory::new(options))
}
