//! Imports.

ghost use Rattle.std.specs.Prelude.{◌≡◌, ◌∷◌, ℕ, IfOk};
ghost use Rattle.std.specs.List.{join_with_byte, list_all};
ghost use Rattle.py_syntax.specs.BlockTrees.{LineAt, view_module_item};
ghost use Rattle.py_syntax.specs.ModuleTrees.{view_module_line};
ghost use Rattle.test_meaning.specs.Rules.Rules.{is_exported, is_unknown_import};

use port_io::{Name, NoMemory};
use py_syntax::{ModuleItem, ModuleLine};
use std::alloc::Global;
use test_meaning::rules::{is_exported, is_module};

/// The first part of a module's name, and the others, each behind a dot.
fn joined(alloc: Global, first: &Name, others: &[Name]) -> Result<Vec<u8>, NoMemory>
    ensures { IfOk result (λ name. name.items ≡ join_with_byte 46 (first.now ∷ others.now)) }
{
    let mut name = first.bytes().to_vec(alloc)?;
    for part in others {
        name.push(b'.')?;
        name.extend_from_slice(part.bytes())?;
    }
    Ok(name)
}

/// The name of a module, whose parts have dots between them. Only want of memory is an error.
fn module_name(alloc: Global, parts: &[Name]) -> Result<Vec<u8>, NoMemory>
    ensures { IfOk result (λ name. name.items ≡ join_with_byte 46 parts.now) }
{
    match parts {
        [first, others @ ..] => joined(alloc, first, others),
        [] => Ok(Vec::new(alloc)),
    }
}

/// Whether all names may be imported from this module.
fn are_exported(origin: &[u8], names: &[Name]) -> bool
    ensures { result ≡ list_all (is_exported origin.now) names.now }
{
    for name in names {
        if !is_exported(origin, name.bytes()) {
            return false;
        }
    }
    true
}

/// Whether a line imports a module or a name that can't be imported. Only want of memory is an error.
fn line_imports_unknown(alloc: Global, line: &ModuleLine) -> Result<bool, NoMemory>
    ensures { IfOk result (λ yes. (l : ℕ) → yes ≡ is_unknown_import (LineAt l (view_module_line line.now))) }
{
    match line {
        ModuleLine::Import(name) => Ok(!is_module(name.bytes())),
        ModuleLine::FromImport(parts, names) => {
            let origin = module_name(alloc, parts)?;
            Ok(!are_exported(&origin, names))
        }
        _ => Ok(false),
    }
}

/// Whether an item imports a module or a name that a tests file can't import (UnknownImport). Only want of memory is an error.
pub fn imports_unknown(alloc: Global, item: &ModuleItem) -> Result<bool, NoMemory>
    ensures { IfOk result (λ yes. yes ≡ is_unknown_import (view_module_item item.now)) }
{
    match item {
        ModuleItem::Line { line, .. } => line_imports_unknown(alloc, line),
        _ => Ok(false),
    }
}
