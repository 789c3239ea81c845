//! Lines in their places.

ghost use Rattle.std.specs.Prelude.{◌≡◌, ◌++◌, ◌∷◌, [], List, map, IfOk, IfErr, MatchOption};
ghost use Rattle.py_syntax.specs.Outline;
ghost use Rattle.py_syntax.specs.Outline.{Placed, view_placed, Refusal, SpellsOutline, AreWithinLimits, Refused, at_start};
ghost use Rattle.py_parse.specs.Reading;
ghost use Rattle.py_parse.specs.Found.{lines_in, Gives, IsOutcome, IsSaid, AreFound, IsBroken, IsRefused};

use crate::blocks::Blocks;
use crate::content::content;
use crate::fault::{ContentFault, PyFault};
use crate::place::{has_block, place};
use crate::words::word_of;
use port_io::NoMemory;
use py_syntax::{Content, Lines, LogicalLine, PlacedLine};
use std::alloc::Global;

/// How deep a line may stand.
const DEEPEST: usize = 32;

/// A line in these blocks, of which it says this.
fn placed(
    blocks: Blocks,
    line: &LogicalLine,
    said: Result<Box<Content>, ContentFault>,
    has_block: bool,
) -> Result<(Blocks, PlacedLine), PyFault>
    ensures { (said_is : Reading.Said) → IsSaid said said_is → IsOutcome line.now result (Reading.outcome_in line.now blocks said_is has_block) }
{
    let number = line.number();
    let content = match said {
        Ok(content) => Some(content),
        Err(ContentFault::TooHigh) => None,
        Err(ContentFault::Nothing) => return Err(PyFault::BadLine(number.0)),
        Err(ContentFault::OutOfMemory) => return Err(PyFault::OutOfMemory),
    };
    if !has_block {
        return Err(PyFault::NoBlock(number.0));
    }
    let depth = blocks.depth();
    match content {
        Some(content) if depth <= DEEPEST => {
            let depth = depth as u32;
            let content = Box::into_inner(content);
            Ok((
                blocks,
                PlacedLine {
                    depth,
                    number,
                    content,
                },
            ))
        }
        _ => Err(PyFault::TooDeep(number.0)),
    }
}

/// A line in its place, and the blocks that are open there.
#[tactic(auto, unfolding(crate::specs::Reading::outcome))]
fn stand(
    alloc: Global,
    blocks: Blocks,
    line: &LogicalLine,
    following: &[LogicalLine],
) -> Result<(Blocks, PlacedLine), PyFault>
    ensures { IsOutcome line.now result (Reading.outcome blocks line.now following.now) }
{
    let Some(inside) = place(blocks, line)? else {
        return Err(PyFault::BadLine(line.number().0));
    };
    let said = content(alloc, inside.depth(), line);
    placed(inside, line, said, has_block(line, following))
}

/// These and one more.
fn with<T: Drop>(mut all: Vec<T>, one: T) -> Result<Vec<T>, NoMemory>
    ensures { IfOk result (λ more. more.items ≡ all.items ++ (one ∷ [])) }
{
    all.push(one)?;
    Ok(all)
}

/// The first line and the lines after it.
fn next(lines: &[LogicalLine]) -> Option<(&LogicalLine, &[LogicalLine])>
    ensures { MatchOption result (lines.now ≡ []) (λ x. lines.now ≡ x.0.now ∷ x.1.now) }
{
    lines.split_first()
}

/// The lines of a text in their places, or the first refusal.
#[tactic(auto, unfolding(crate::specs::Reading::outline_of))]
fn lines_in_place(alloc: Global, lines: &[LogicalLine]) -> Result<Vec<PlacedLine>, PyFault>
    ensures { Gives lines_in result (Reading.outline_of lines.now) }
{
    let mut all = Vec::new(alloc);
    let mut blocks = Blocks::at_start(alloc)?;
    let mut rest = lines;
    'lines: loop {
        match next(rest) {
            None => return Ok(all),
            Some((line, following)) => {
                let (inside, found) = stand(alloc, blocks, line, following)?;
                all = with(all, found)?;
                blocks = inside.with_last(word_of(line.tokens()))?;
                rest = following;
            }
        }
    }
}

/// The lines of a text in their places, as far as they have one: the first line that breaks a rule is the fault.
pub fn outline(alloc: Global, lines: &Lines) -> Result<Vec<PlacedLine>, PyFault>
    ensures gives { Gives lines_in result (Reading.outline_of lines.now) }
    ensures found { IfOk result
        (λ placed. SpellsOutline at_start (map view_placed placed.items) lines.now × AreWithinLimits (map view_placed placed.items)) }
    ensures only { (placed : List Placed) → SpellsOutline at_start placed lines.now → AreWithinLimits placed → AreFound placed result }
    ensures refused { IfErr result (λ fault. IsBroken lines.now fault) }
    ensures only_refused { (refusal : Refusal) → Refused at_start lines.now refusal → IsRefused refusal result }
{
    lines_in_place(alloc, lines.as_slice())
}
