//! What is open while an expression is read, and where in it reading stands.

ghost use Rattle.std.specs.Prelude.{◌≡◌, [], ◌∷◌, IfOk, MatchOption};
ghost use Rattle.py_expression.specs.Kept.{measured};
ghost use Rattle.py_expression.specs.Spots.{frame_in, stack_in, spot_in};
ghost use Rattle.py_expression.specs.Reading;

use crate::arguments::FunctionArguments;
use crate::measured::Measured;
use crate::parts::Parts;
use port_io::NoMemory;
use py_syntax::{Function, Operation, Token, UnOp};

/// A node of which an operand is awaited, with what stands before that operand.
#[derive(Drop)]
pub enum Opened {
    Prefix(UnOp),
    Infix(Operation, Measured),
    Brackets,
    Subscript(Measured),
    Call(Function, FunctionArguments),
    Format(Parts),
}

/// An opened node, and how tightly an operand has to bind in whose place it stands.
#[derive(Drop)]
pub struct Frame {
    pub opened: Opened,
    pub least: usize,
}

/// Where reading stands.
#[derive(Drop)]
pub enum Point {
    /// Before an operand.
    Wanted,
    /// Behind a primary.
    Primary(Measured),
    /// Behind an operand that binds so tightly.
    Operand(Measured, usize),
    /// In an f-string, outside of its expressions.
    Parts(Parts),
}

/// The opened nodes, the innermost last; how tightly the operand in hand has to bind; where reading stands in it; and the tokens
/// that are left.
#[derive(Drop)]
pub struct Spot<'a> {
    pub stack: Vec<Frame>,
    pub least: usize,
    pub point: Point,
    pub rest: &'a [Token],
}

/// What a step of reading gives.
#[derive(Drop)]
pub enum Step<'a> {
    Going(Spot<'a>),
    /// An expression, and the tokens after it.
    Done(Measured, &'a [Token]),
}

/// Opens a node, of which an operand is awaited next.
#[tactic(auto, using(crate::proofs::Stacks::stack_push))]
pub fn open<'a>(
    mut stack: Vec<Frame>,
    frame: Frame,
    least: usize,
    rest: &'a [Token],
) -> Result<Spot<'a>, NoMemory>
    ensures { IfOk result (λ x. spot_in x ≡ Reading.opened (stack_in stack.items) (frame_in frame) least rest.now) }
{
    stack.push(frame)?;
    Ok(Spot {
        stack,
        least,
        point: Point::Wanted,
        rest,
    })
}

/// Takes the innermost node.
#[tactic(auto, using(crate::proofs::Stacks::stack_push, crate::proofs::Stacks::stack_none))]
pub fn innermost(stack: &mut Vec<Frame>) -> Option<Frame>
    ensures { MatchOption result (stack_in stack.old.items ≡ []) (λ f. stack_in stack.old.items ≡ frame_in f ∷ stack_in stack.new.items) }
{
    match stack.pop() {
        Some(frame) => Some(frame),
        None => None,
    }
}

/// Behind a primary.
pub fn behind_primary<'a>(
    stack: Vec<Frame>,
    least: usize,
    primary: Measured,
    rest: &'a [Token],
) -> Spot<'a>
    ensures { spot_in result ≡ Reading.behind_primary (stack_in stack.items) least (measured primary) rest.now }
{
    Spot {
        stack,
        least,
        point: Point::Primary(primary),
        rest,
    }
}
