//! The last line that is no docstring.

ghost use Rattle.std.specs.Prelude.{◌≡◌, ℕ, map};
ghost use Rattle.py_syntax.specs.BlockTrees.{block_of, view_item, view_module_item};
ghost use Rattle.py_syntax.specs.Line.{physical_line};
ghost use Rattle.py_syntax.specs.Modules.{block_lines, item_lines, module_item_lines, module_lines};
ghost use Rattle.test_meaning.specs.Rules.Rules.{last_line};
ghost use Rattle.test_names.specs.LastLine.Behind.{number_behind};

use py_syntax::{BlockItem, LineNumber, ModuleItem};

/// The last line of an item of a block, or the one before where the item is a docstring.
#[cycle(blocks)]
fn of_item(before: LineNumber, item: &BlockItem) -> LineNumber
    ensures { (depth : ℕ) → result.0 ≡ number_behind before.0 (item_lines depth (view_item item.now)) }
{
    match item {
        BlockItem::Docstring { .. } => before,
        BlockItem::Statement { number, .. } => *number,
        BlockItem::Clause { number, block, .. } => of_block(*number, block),
    }
}

/// The last line of a block, or the one before where it has no lines but docstrings.
#[cycle(blocks)]
fn of_block(before: LineNumber, block: &[BlockItem]) -> LineNumber
    ensures { (depth : ℕ) → result.0 ≡ number_behind before.0 (block_lines depth (block_of block.now)) }
{
    let mut last = before;
    for item in block {
        last = of_item(last, item);
    }
    last
}

/// The last line of an item of a module, or the one before where the item is a docstring.
fn of_module_item(before: LineNumber, item: &ModuleItem) -> LineNumber
    ensures { result.0 ≡ number_behind before.0 (module_item_lines (view_module_item item.now)) }
{
    match item {
        ModuleItem::Docstring { .. } => before,
        ModuleItem::Line { number, .. } => *number,
        ModuleItem::Function { number, body, .. } => of_block(*number, body),
    }
}

/// The last line of a module that is no docstring, or line 1 where there is none. Lines count from 1.
pub fn last_line(items: &[ModuleItem]) -> LineNumber
    ensures { result ≡ physical_line (last_line (module_lines (map view_module_item items.now))) }
{
    let mut last = LineNumber(1);
    for item in items {
        last = of_module_item(last, item);
    }
    last
}
