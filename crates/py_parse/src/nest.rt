//! The tree of a module.

ghost use Rattle.std.specs.Prelude.{◌≡◌, List, map, reverse, IfOk, OnOk};
ghost use Rattle.py_syntax.specs.Line.{Line};
ghost use Rattle.py_syntax.specs.BlockTrees as trees;
ghost use Rattle.py_syntax.specs.BlockTrees.{view_item, view_module_item, view_module, block_of};
ghost use Rattle.py_syntax.specs.ModuleTrees.{view_module_line};
ghost use Rattle.py_syntax.specs.StatementTrees.{view_header, view_line};
ghost use Rattle.py_syntax.specs.Outline.{InModule, InBody, view_content, view_placed, SpellsOutline, at_start};
ghost use Rattle.py_syntax.specs.Modules.{AreItems, module_lines, SpellsModule};
ghost use Rattle.py_parse.specs.Kept.{nest_in};
ghost use Rattle.py_parse.specs.Nesting;

use crate::list::push;
use crate::partial_block::PartialBlocks;
use port_io::NoMemory;
use py_syntax::{
    BlockItem, BodyLine, Content, Header, LineNumber, Module, ModuleItem, ModuleLine, PlacedLine,
};
use std::alloc::Global;

/// A header with its block.
fn clause(number: LineNumber, header: Header, block: Vec<BlockItem>) -> BlockItem
    ensures { view_item result ≡ trees.ClauseAt number.0 (view_header header) (block_of block.items) }
{
    BlockItem::Clause {
        number,
        header,
        block,
    }
}

/// A line of a function's body, with the block that it heads.
#[tactic(auto, unfolding(crate::specs::Nesting::item_of))]
fn body_item(number: LineNumber, line: BodyLine, block: Vec<BlockItem>) -> BlockItem
    ensures { view_item result ≡ Nesting.item_of number.0 (InBody (view_line line)) (block_of block.items) }
{
    match line {
        BodyLine::Statement(statement) => BlockItem::Statement { number, statement },
        BodyLine::Header(header) => clause(number, header, block),
    }
}

/// What stands in a block.
#[tactic(auto, unfolding(crate::specs::Nesting::item_of))]
fn item_of(number: LineNumber, content: Content, block: Vec<BlockItem>) -> BlockItem
    ensures { view_item result ≡ Nesting.item_of number.0 (view_content content) (block_of block.items) }
{
    match content {
        Content::Body(line) => body_item(number, line, block),
        Content::Docstring | Content::Module(_) => BlockItem::Docstring { number },
    }
}

/// A line of a module, with the block that it heads.
#[tactic(auto, unfolding(crate::specs::Nesting::module_item_of))]
fn line_item(number: LineNumber, line: ModuleLine, body: Vec<BlockItem>) -> ModuleItem
    ensures { view_module_item result ≡ Nesting.module_item_of number.0 (InModule (view_module_line line)) (block_of body.items) }
{
    match line {
        ModuleLine::Function(name, parameters) => ModuleItem::Function {
            number,
            name,
            parameters,
            body,
        },
        line => ModuleItem::Line { number, line },
    }
}

/// What stands in a module.
#[tactic(auto, unfolding(crate::specs::Nesting::module_item_of))]
fn module_item_of(number: LineNumber, content: Content, body: Vec<BlockItem>) -> ModuleItem
    ensures { view_module_item result ≡ Nesting.module_item_of number.0 (view_content content) (block_of body.items) }
{
    match content {
        Content::Module(line) => line_item(number, line, body),
        Content::Docstring | Content::Body(_) => ModuleItem::Docstring { number },
    }
}

/// What was made of the lines behind a place.
#[derive(Drop)]
struct Nest {
    /// What stands in the module, the last first.
    items: Vec<ModuleItem>,
    blocks: PartialBlocks,
}

impl Nest {
    /// Behind the last line.
    fn new(alloc: Global) -> Nest
        ensures { nest_in result ≡ Nesting.nothing }
    {
        Nest {
            items: Vec::new(alloc),
            blocks: PartialBlocks::new(alloc),
        }
    }

    /// With one line more before.
    #[tactic(auto, using(crate::proofs::RowLaws::reverse_more), unfolding(crate::specs::Nesting::add))]
    fn add(&mut self, alloc: Global, line: PlacedLine) -> Result<(), NoMemory>
        ensures { OnOk result (nest_in self.new ≡ Nesting.add (view_placed line) (nest_in self.old)) }
    {
        let PlacedLine {
            depth,
            number,
            content,
        } = line;
        let block = self.blocks.take_under(alloc, depth);
        if depth == 0 {
            push(&mut self.items, module_item_of(number, content, block))
        } else {
            self.blocks
                .put(alloc, depth, item_of(number, content, block))
        }
    }
}

/// The module of these lines, made from the last to the first.
#[tactic(auto, using(crate::proofs::AddLaws::all_from_last), unfolding(crate::specs::Nesting::module_of))]
fn nested(alloc: Global, lines: Vec<PlacedLine>) -> Result<Module, NoMemory>
    ensures { IfOk result (λ m. view_module m ≡ Nesting.module_of (map view_placed lines.items)) }
{
    let mut lines = lines;
    let mut made = Nest::new(alloc);
    while let Some(line) = lines.pop() {
        made.add(alloc, line)?;
    }
    let Nest { mut items, .. } = made;
    items.reverse();
    Ok(Module { items })
}

/// The module whose lines these are. The only error is want of memory.
pub fn module_of(alloc: Global, lines: Vec<PlacedLine>) -> Result<Module, NoMemory>
    // Where they stand in their places in a text, the module spells that text, and these are its lines.
    ensures spells { IfOk result (λ m. (text : List Line) → SpellsOutline at_start (map view_placed lines.items) text
        → SpellsModule (view_module m) text × (module_lines (view_module m) ≡ map view_placed lines.items)) }
    // A module with these lines is this one.
    ensures only { (m : List trees.ModuleItem) → AreItems m → module_lines m ≡ map view_placed lines.items → IfOk result (λ x. view_module x ≡ m) }
{
    nested(alloc, lines)
}
