//! The places of lines, and the blocks of headers.

ghost use Rattle.std.specs.Prelude.{◌≡◌, IfOk};
ghost use Rattle.py_syntax.specs.Outline;

use crate::blocks::Blocks;
use crate::words::{is_except, is_header, is_try, may_follow, word_of};
use port_io::NoMemory;
use py_syntax::{Keyword, LogicalLine, OpenBlock};

/// The innermost of these blocks, if it is indented so, in its place.
fn exact(blocks: Blocks, indentation: u32) -> Option<Blocks>
    ensures { result ≡ Outline.exact indentation blocks }
{
    match blocks.innermost() {
        Some(block) if block.indentation == indentation => Some(blocks),
        _ => None,
    }
}

/// The blocks that are open at a line of this indentation.
fn enter(mut blocks: Blocks, indentation: u32) -> Result<Option<Blocks>, NoMemory>
    ensures { IfOk result (λ inside. inside ≡ Outline.enter indentation blocks) }
{
    let Some(block) = blocks.innermost() else {
        return Ok(None);
    };
    if block.indentation < indentation {
        if !is_header(block.last) {
            return Ok(None);
        }
        let last = None;
        return Ok(Some(blocks.open(OpenBlock { indentation, last })?));
    }
    blocks.close_deeper(indentation);
    Ok(exact(blocks, indentation))
}

/// These blocks, if a line that begins with this word may stand in the innermost.
fn may_stand(word: Option<Keyword>, blocks: Blocks) -> Option<Blocks>
    ensures { result ≡ Outline.may_stand word blocks }
{
    may_follow(blocks.last_word(), word).then_some(blocks)
}

/// The blocks that are open at a line, if one of them is its place.
#[tactic(auto, unfolding(py_syntax::specs::Outline::place))]
pub fn place(blocks: Blocks, line: &LogicalLine) -> Result<Option<Blocks>, NoMemory>
    ensures { IfOk result (λ inside. inside ≡ Outline.place line.now blocks) }
{
    match enter(blocks, line.indentation())? {
        Some(inside) => Ok(may_stand(word_of(line.tokens()), inside)),
        None => Ok(None),
    }
}

/// Whether the next line is indented deeper.
fn goes_deeper(indentation: u32, following: &[LogicalLine]) -> bool
    ensures { result ≡ Outline.goes_deeper indentation following.now }
{
    match following.split_first() {
        Some((next, _)) => indentation < next.indentation(),
        None => false,
    }
}

/// Whether the next line that isn't indented deeper is indented so and begins with `except`.
#[tactic(auto, unfolding(py_syntax::specs::Outline::is_caught))]
fn is_caught(indentation: u32, following: &[LogicalLine]) -> bool
    ensures { result ≡ Outline.is_caught indentation following.now }
{
    for next in following {
        if next.indentation() <= indentation {
            return next.indentation() == indentation && is_except(word_of(next.tokens()));
        }
    }
    false
}

/// Whether a line has its block, if it is a header, and an `except` behind that, if it is a `try`.
#[tactic(auto, unfolding(py_syntax::specs::Outline::has_block))]
pub fn has_block(line: &LogicalLine, following: &[LogicalLine]) -> bool
    ensures { result ≡ Outline.has_block line.now following.now }
{
    let word = word_of(line.tokens());
    let indentation = line.indentation();
    if !is_header(word) {
        return true;
    }
    goes_deeper(indentation, following) && (!is_try(word) || is_caught(indentation, following))
}
