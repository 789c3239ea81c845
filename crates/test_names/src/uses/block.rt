//! Blocks.

ghost use Rattle.std.specs.Prelude.{◌≡◌, IfOk};
ghost use Rattle.py_syntax.specs.BlockTrees.{block_of, view_item};
ghost use Rattle.test_meaning.specs.Rules.Rules.{first_broken, refused_at};
ghost use Rattle.test_meaning.specs.Rules.Uses.{block_lines, item_lines};

use crate::uses::header::is_looped;
use crate::uses::{Scope, of_header, of_statement};
use port_io::NoMemory;
use py_syntax::{BlockItem, LineNumber};
use std::alloc::Global;
use test_meaning::rules::{FileRule, Refusal};

/// The refusal of a line that breaks this rule, if any.
pub fn refused_at(line: LineNumber, rule: Option<FileRule>) -> Option<Refusal>
    ensures { result ≡ refused_at line.0 rule }
{
    match rule {
        Some(rule) => Some(Refusal { rule, line }),
        None => None,
    }
}

/// The first line of an item of a block that breaks a rule, and the rule. Only want of memory is an error.
#[cycle(blocks)]
fn of_item<S: Scope>(
    alloc: Global,
    scope: &S,
    looped: bool,
    item: &BlockItem,
) -> Result<Option<Refusal>, NoMemory>
    ensures { IfOk result (λ refusal. refusal ≡ first_broken (S.file scope.now) (item_lines (S.around scope.now) looped (view_item item.now))) }
{
    match item {
        BlockItem::Docstring { .. } => Ok(None),
        BlockItem::Statement { number, statement } => {
            let rule = of_statement(alloc, scope, looped, statement)?;
            Ok(refused_at(*number, rule))
        }
        BlockItem::Clause {
            number,
            header,
            block,
        } => match refused_at(*number, of_header(scope, header)) {
            Some(refusal) => Ok(Some(refusal)),
            None => of_block(alloc, scope, is_looped(looped, header), block),
        },
    }
}

/// The first line of a block that breaks a rule, and the rule. Only want of memory is an error.
#[cycle(blocks)]
pub fn of_block<S: Scope>(
    alloc: Global,
    scope: &S,
    looped: bool,
    block: &[BlockItem],
) -> Result<Option<Refusal>, NoMemory>
    ensures { IfOk result (λ refusal. refusal ≡ first_broken (S.file scope.now) (block_lines (S.around scope.now) looped (block_of block.now))) }
{
    for item in block {
        let found = of_item(alloc, scope, looped, item)?;
        if found.is_some() {
            return Ok(found);
        }
    }
    Ok(None)
}
