//! The first broken rule.

ghost use Rattle.std.specs.Prelude.{◌≡◌, ◌++◌, ◌∷◌, [], OnOk, IfOk, fold, filter, nat_lt, ◌==◌};
ghost use Rattle.std.specs.List.{list_any};
ghost use Rattle.std.specs.Option.{option_to_list};
ghost use Rattle.py_syntax.specs.Logical;

use port_io::NoMemory;
use py_syntax::{Broken, LineRule, LogicalLine};
use std::alloc::Global;

fn rank(rule: LineRule) -> u8
    ensures { result ≡ Logical.rank rule }
{
    match rule {
        LineRule::Tab => 0,
        LineRule::Dedent => 1,
        LineRule::UnclosedText => 2,
        LineRule::BadByte => 3,
    }
}

fn comes_before(left: Broken, right: Broken) -> bool
    ensures { result ≡ Logical.comes_before left right }
{
    left.line.0 < right.line.0
        || (left.line.0 == right.line.0 && rank(left.rule) < rank(right.rule))
}

/// The earlier of two broken rules, where there are any.
pub fn earlier(first: Option<Broken>, second: Option<Broken>) -> Option<Broken>
    ensures { result ≡ fold Logical.earlier first (option_to_list second) }
{
    let Some(other) = second else {
        return first;
    };
    match first {
        Some(broken) if !comes_before(other, broken) => Some(broken),
        _ => Some(other),
    }
}

/// The indentation of the innermost open block.
fn innermost(blocks: &[u32]) -> u32
    ensures { result ≡ Logical.innermost blocks.now }
{
    match blocks.last() {
        Some(block) => *block,
        None => 0,
    }
}

fn is_open(blocks: &[u32], indentation: u32) -> bool
    ensures { result ≡ list_any (λ b. b == indentation) blocks.now }
{
    blocks.iter().any(|block| *block == indentation)
}

fn is_dedent(blocks: &[u32], indentation: u32) -> bool
    ensures { result ≡ Logical.is_dedent blocks.now indentation }
{
    indentation < innermost(blocks) && !is_open(blocks, indentation)
}

fn close(blocks: &mut Vec<u32>, indentation: u32)
    ensures { blocks.new.items ≡ filter (λ b. nat_lt b indentation) blocks.old.items }
{
    blocks.retain(|block| *block < indentation);
}

fn enter(blocks: &mut Vec<u32>, indentation: u32) -> Result<(), NoMemory>
    ensures { OnOk result (blocks.new.items ≡ Logical.blocks_at blocks.old.items indentation) }
{
    close(blocks, indentation);
    blocks.push(indentation)?;
    Ok(())
}

/// The first line that is indented less than the one before it, at an indentation of no open block.
#[tactic(auto, unfolding(py_syntax::specs::Logical::first_dedent))]
pub fn first_dedent(alloc: Global, lines: &[LogicalLine]) -> Result<Option<Broken>, NoMemory>
    ensures { IfOk result (λ found. option_to_list found ≡ Logical.first_dedent (0 ∷ []) lines.now) }
{
    let mut blocks = Vec::new(alloc);
    blocks.push(0)?;
    for line in lines {
        if is_dedent(&blocks, line.indentation()) {
            return Ok(Some(Broken {
                line: line.number(),
                rule: LineRule::Dedent,
            }));
        }
        enter(&mut blocks, line.indentation())?;
    }
    Ok(None)
}
