//! Modules.

ghost use Rattle.std.specs.Prelude.{◌≡◌, IfOk, map};
ghost use Rattle.std.specs.List.{flat_map};
ghost use Rattle.py_syntax.specs.BlockTrees.{FunctionAt, block_of, view_module, view_module_item};
ghost use Rattle.py_syntax.specs.ModuleTrees as tree;
ghost use Rattle.py_syntax.specs.ModuleTrees.{view_module_line};
ghost use Rattle.python_tests.specs.Trees.ModuleText.{
  affix_text,
  default_text,
  factory_call,
  function_text,
  line_text,
  module_item_text,
  module_text,
  parameter_text,
  setting_text,
  spaced_name,
};

use crate::trees::block::block_text;
use crate::trees::expression::{constant_text, pair_text};
use crate::trees::piece::{joined, quoted_text};
use crate::trees::statement::{constants_text, member_call_text};
use port_io::Name;
use py_syntax::{BlockItem, Const, Module, ModuleItem, ModuleLine, Parameter, Setting};
use std::alloc::{AllocError, Global};

/// Names, each behind a space.
fn spaced_names(alloc: Global, names: &[Name]) -> Result<Vec<u8>, AllocError>
    ensures { IfOk result (λ text. text.items ≡ flat_map spaced_name names.now) }
{
    let mut text = Vec::new(alloc);
    for name in names {
        text.extend_from_slice(b" ")?;
        text.extend_from_slice(name.bytes())?;
    }
    Ok(text)
}

/// An import of names from a module.
fn import_text(alloc: Global, path: &[Name], names: &[Name]) -> Result<Vec<u8>, AllocError>
    ensures { IfOk result (λ text. text.items ≡ line_text (tree.FromImport path.now names.now)) }
{
    let path = spaced_names(alloc, path)?;
    let names = spaced_names(alloc, names)?;
    joined(alloc, &[b"(from", &path, b" import", &names, b")"])
}

/// A constant that is given a name.
fn named_text(alloc: Global, name: &Name, constant: &Const) -> Result<Vec<u8>, AllocError>
    ensures { IfOk result (λ text. text.items ≡ line_text (tree.Constant name.now constant.now)) }
{
    let constant = constant_text(alloc, constant)?;
    pair_text(alloc, b"=", name.bytes(), &constant)
}

/// An option of a test, behind a space.
fn setting_text(alloc: Global, setting: &Setting) -> Result<Vec<u8>, AllocError>
    ensures { IfOk result (λ text. text.items ≡ setting_text setting.now) }
{
    let value = constant_text(alloc, &setting.value)?;
    joined(alloc, &[b" ", setting.name.bytes(), b"=", &value])
}

/// The options of a test, each behind a space.
fn settings_text(alloc: Global, settings: &[Setting]) -> Result<Vec<u8>, AllocError>
    ensures { IfOk result (λ text. text.items ≡ flat_map setting_text settings.now) }
{
    let mut text = Vec::new(alloc);
    for setting in settings {
        let more = setting_text(alloc, setting)?;
        text.extend_from_slice(&more)?;
    }
    Ok(text)
}

/// The decorator of a test with its options.
fn decorator_text(alloc: Global, settings: &[Setting]) -> Result<Vec<u8>, AllocError>
    ensures { IfOk result (λ text. text.items ≡ line_text (tree.Test settings.now)) }
{
    let settings = settings_text(alloc, settings)?;
    joined(
        alloc,
        &[b"(decorator (call (. cocotb test)", &settings, b"))"],
    )
}

/// A call that makes the factory of a function.
fn factory_call(alloc: Global, function: &[u8]) -> Result<Vec<u8>, AllocError>
    ensures { IfOk result (λ text. text.items ≡ factory_call function.now) }
{
    joined(alloc, &[b"(call TestFactory ", function, b")"])
}

/// A factory that is given a name.
fn factory_text(alloc: Global, name: &Name, function: &Name) -> Result<Vec<u8>, AllocError>
    ensures { IfOk result (λ text. text.items ≡ line_text (tree.Factory name.now function.now)) }
{
    let call = factory_call(alloc, function.bytes())?;
    pair_text(alloc, b"=", name.bytes(), &call)
}

/// An option of a factory.
fn option_text(
    alloc: Global,
    factory: &Name,
    option: &Name,
    constants: &[Const],
) -> Result<Vec<u8>, AllocError>
    ensures { IfOk result (λ text. text.items ≡ line_text (tree.AddOption factory.now option.now constants.now)) }
{
    let option = quoted_text(alloc, option)?;
    let list = constants_text(alloc, constants)?;
    let arguments = joined(alloc, &[b" ", &option, b" ", &list])?;
    member_call_text(alloc, factory.bytes(), b"add_option", &arguments)
}

/// A prefix or a postfix behind such a word, if there is one.
fn affix_text(alloc: Global, word: &[u8], affix: &Option<Name>) -> Result<Vec<u8>, AllocError>
    ensures { IfOk result (λ text. text.items ≡ affix_text word.now affix.now) }
{
    match affix {
        Some(text) => {
            let text = quoted_text(alloc, text)?;
            joined(alloc, &[word, &text])
        }
        None => Ok(Vec::new(alloc)),
    }
}

/// The tests of a factory.
fn tests_text(
    alloc: Global,
    factory: &Name,
    prefix: &Option<Name>,
    postfix: &Option<Name>,
) -> Result<Vec<u8>, AllocError>
    ensures { IfOk result (λ text. text.items ≡ line_text (tree.GenerateTests factory.now prefix.now postfix.now)) }
{
    let prefix = affix_text(alloc, b" prefix=", prefix)?;
    let postfix = affix_text(alloc, b" postfix=", postfix)?;
    let arguments = joined(alloc, &[&prefix, &postfix])?;
    member_call_text(alloc, factory.bytes(), b"generate_tests", &arguments)
}

/// `=` and a default, if there is one.
fn default_text(alloc: Global, default: &Option<Const>) -> Result<Vec<u8>, AllocError>
    ensures { IfOk result (λ text. text.items ≡ default_text default.now) }
{
    match default {
        Some(constant) => {
            let constant = constant_text(alloc, constant)?;
            joined(alloc, &[b"=", &constant])
        }
        None => Ok(Vec::new(alloc)),
    }
}

/// A parameter, behind a space.
fn parameter_text(alloc: Global, parameter: &Parameter) -> Result<Vec<u8>, AllocError>
    ensures { IfOk result (λ text. text.items ≡ parameter_text parameter.now) }
{
    let default = default_text(alloc, &parameter.default)?;
    joined(alloc, &[b" ", parameter.name.bytes(), &default])
}

/// Parameters, each behind a space.
fn parameters_text(alloc: Global, parameters: &[Parameter]) -> Result<Vec<u8>, AllocError>
    ensures { IfOk result (λ text. text.items ≡ flat_map parameter_text parameters.now) }
{
    let mut text = Vec::new(alloc);
    for parameter in parameters {
        let more = parameter_text(alloc, parameter)?;
        text.extend_from_slice(&more)?;
    }
    Ok(text)
}

/// The header of a function.
fn function_header(
    alloc: Global,
    name: &Name,
    parameters: &[Parameter],
) -> Result<Vec<u8>, AllocError>
    ensures { IfOk result (λ text. text.items ≡ line_text (tree.Function name.now parameters.now)) }
{
    let parameters = parameters_text(alloc, parameters)?;
    joined(alloc, &[b"(header ", name.bytes(), &parameters, b")"])
}

/// A line outside of functions.
fn line_text(alloc: Global, line: &ModuleLine) -> Result<Vec<u8>, AllocError>
    ensures { IfOk result (λ text. text.items ≡ line_text (view_module_line line.now)) }
{
    match line {
        ModuleLine::Import(name) => joined(alloc, &[b"(import ", name.bytes(), b")"]),
        ModuleLine::FromImport(path, names) => import_text(alloc, path, names),
        ModuleLine::Constant(name, constant) => named_text(alloc, name, constant),
        ModuleLine::Test(settings) => decorator_text(alloc, settings),
        ModuleLine::Factory(name, function) => factory_text(alloc, name, function),
        ModuleLine::AddOption(factory, option, constants) => {
            option_text(alloc, factory, option, constants)
        }
        ModuleLine::GenerateTests(factory, prefix, postfix) => {
            tests_text(alloc, factory, prefix, postfix)
        }
        ModuleLine::Function(name, parameters) => function_header(alloc, name, parameters),
    }
}

/// A function with its block.
#[tactic(auto, using(crate::proofs::TreesLemmas::Rows::block_items))]
fn function_text(
    alloc: Global,
    name: &Name,
    parameters: &[Parameter],
    body: &[BlockItem],
) -> Result<Vec<u8>, AllocError>
    ensures { IfOk result (λ text. text.items ≡ function_text name.now parameters.now (block_of body.now)) }
{
    let parameters = parameters_text(alloc, parameters)?;
    let body = block_text(alloc, body)?;
    joined(
        alloc,
        &[
            b"(def ",
            name.bytes(),
            b" (parameters",
            &parameters,
            b")",
            &body,
            b")",
        ],
    )
}

/// An item of a module, behind a space; nothing of a docstring.
fn module_item_text(alloc: Global, item: &ModuleItem) -> Result<Vec<u8>, AllocError>
    ensures { IfOk result (λ text. text.items ≡ module_item_text (view_module_item item.now)) }
{
    match item {
        ModuleItem::Docstring { .. } => Ok(Vec::new(alloc)),
        ModuleItem::Line { line, .. } => {
            let text = line_text(alloc, line)?;
            joined(alloc, &[b" ", &text])
        }
        ModuleItem::Function {
            name,
            parameters,
            body,
            ..
        } => {
            let text = function_text(alloc, name, parameters, body)?;
            joined(alloc, &[b" ", &text])
        }
    }
}

/// The items of a module, each behind a space.
fn items_text(alloc: Global, items: &[ModuleItem]) -> Result<Vec<u8>, AllocError>
    ensures { IfOk result (λ text. text.items ≡ flat_map module_item_text (map view_module_item items.now)) }
{
    let mut text = Vec::new(alloc);
    for item in items {
        let more = module_item_text(alloc, item)?;
        text.extend_from_slice(&more)?;
    }
    Ok(text)
}

/// A module. Only want of memory is an error.
pub fn module_text(alloc: Global, tree: &Module) -> Result<Vec<u8>, AllocError>
    ensures { IfOk result (λ text. text.items ≡ module_text (view_module tree.now)) }
{
    let items = items_text(alloc, &tree.items)?;
    joined(alloc, &[b"(module", &items, b")"])
}
