//! Constants and expressions.

ghost use Rattle.std.specs.Prelude.{◌≡◌, ◌∷◌, [], map, IfOk, codes};
ghost use Rattle.std.specs.Fmt.{signed_decimal};
ghost use Rattle.std.specs.List.{concat, flat_map};
ghost use Rattle.py_syntax.specs.ExpressionTrees.{NoPart, view, view_part};
ghost use Rattle.python_tests.specs.Trees.TreeText.{choice_mark, constant_text, infix_mark, pair_text, parts_text, prefix_head, tree_text};
ghost use Rattle.python_tests.specs.Trees.CallText.{spaced_text};

use crate::trees::piece::{hex_text, joined, quoted_text};
use py_syntax::{BinOp, BoolOp, Const, Expression, FormatPart, UnOp};
use std::alloc::{AllocError, Global};

/// A whole number in decimal digits.
fn number_text(alloc: Global, number: i128) -> Result<Vec<u8>, AllocError>
    ensures { IfOk result (λ text. text.items ≡ signed_decimal number) }
{
    let digits = format!(in alloc; "{number}")?;
    Ok(digits.into_bytes())
}

/// A constant.
pub fn constant_text(alloc: Global, constant: &Const) -> Result<Vec<u8>, AllocError>
    ensures { IfOk result (λ text. text.items ≡ constant_text constant.now) }
{
    match constant {
        Const::Absent => joined(alloc, &[b"None"]),
        Const::Truth(true) => joined(alloc, &[b"True"]),
        Const::Truth(false) => joined(alloc, &[b"False"]),
        Const::Whole(number) => number_text(alloc, *number),
        Const::Text(text) => quoted_text(alloc, text),
        Const::Named(name) => joined(alloc, &[name.bytes()]),
    }
}

/// The bracket and the mark of an operator with one operand.
fn prefix(op: UnOp) -> &'static [u8]
    ensures { result.now ≡ prefix_head op }
{
    match op {
        UnOp::Not => b"(not ",
        UnOp::Negative => b"(- ",
        UnOp::Positive => b"(+ ",
        UnOp::Invert => b"(~ ",
    }
}

/// The mark of an operator with two operands.
pub fn infix(op: BinOp) -> &'static [u8]
    ensures { result.now ≡ infix_mark op }
{
    match op {
        BinOp::Equal => b"==",
        BinOp::NotEqual => b"!=",
        BinOp::Less => b"<",
        BinOp::LessEqual => b"<=",
        BinOp::Greater => b">",
        BinOp::GreaterEqual => b">=",
        BinOp::Is => b"is",
        BinOp::IsNot => b"is-not",
        BinOp::BitOr => b"|",
        BinOp::BitXor => b"^",
        BinOp::BitAnd => b"&",
        BinOp::ShiftLeft => b"<<",
        BinOp::ShiftRight => b">>",
        BinOp::Add => b"+",
        BinOp::Subtract => b"-",
        BinOp::Multiply => b"*",
        BinOp::FloorDivide => b"//",
        BinOp::Modulo => b"%",
    }
}

/// The word of `or` and `and`.
fn choice(op: BoolOp) -> &'static [u8]
    ensures { result.now ≡ choice_mark op }
{
    match op {
        BoolOp::Or => b"or",
        BoolOp::And => b"and",
    }
}

/// A mark and two parts in brackets.
pub fn pair_text(
    alloc: Global,
    mark: &[u8],
    left: &[u8],
    right: &[u8],
) -> Result<Vec<u8>, AllocError>
    ensures { IfOk result (λ text. text.items ≡ pair_text mark.now left.now right.now) }
{
    joined(alloc, &[b"(", mark, b" ", left, b" ", right, b")"])
}

/// A member of what an expression gives.
#[cycle(expressions)]
pub fn member_text(alloc: Global, base: &Expression, name: &[u8]) -> Result<Vec<u8>, AllocError>
    ensures { IfOk result (λ text. text.items ≡ pair_text (codes ".") (tree_text (view base.now)) name.now) }
{
    let base = expression_text(alloc, base)?;
    pair_text(alloc, b".", &base, name)
}

/// An expression behind a head and before a tail.
#[cycle(expressions)]
fn enclosed_text(
    alloc: Global,
    head: &[u8],
    tree: &Expression,
    tail: &[u8],
) -> Result<Vec<u8>, AllocError>
    ensures { IfOk result (λ text. text.items ≡ concat (head.now ∷ tree_text (view tree.now) ∷ tail.now ∷ [])) }
{
    let text = expression_text(alloc, tree)?;
    joined(alloc, &[head, &text, tail])
}

/// A part of an f-string.
#[cycle(expressions)]
fn part_text(alloc: Global, part: &FormatPart) -> Result<Vec<u8>, AllocError>
    ensures { IfOk result (λ text. text.items ≡ parts_text (view_part part.now NoPart)) }
{
    match part {
        FormatPart::Text(text) => hex_text(alloc, text),
        FormatPart::Formatted(tree) => enclosed_text(alloc, b"{", tree, b"}"),
    }
}

/// The parts of an f-string.
#[cycle(expressions)]
fn parts_text(alloc: Global, parts: &[FormatPart]) -> Result<Vec<u8>, AllocError>
    ensures { IfOk result (λ text. text.items ≡ flat_map (λ p. parts_text (view_part p NoPart)) parts.now) }
{
    let mut text = Vec::new(alloc);
    for part in parts {
        let more = part_text(alloc, part)?;
        text.extend_from_slice(&more)?;
    }
    Ok(text)
}

/// Expressions, each behind a space.
#[cycle(expressions)]
pub fn spaced_texts(alloc: Global, trees: &[Expression]) -> Result<Vec<u8>, AllocError>
    ensures { IfOk result (λ text. text.items ≡ flat_map spaced_text (map view trees.now)) }
{
    let mut text = Vec::new(alloc);
    for tree in trees {
        let more = expression_text(alloc, tree)?;
        text.extend_from_slice(b" ")?;
        text.extend_from_slice(&more)?;
    }
    Ok(text)
}

/// An expression. It is read recursively, in as many calls as the expression is high.
#[cycle(expressions)]
pub fn expression_text(alloc: Global, tree: &Expression) -> Result<Vec<u8>, AllocError>
    ensures { IfOk result (λ text. text.items ≡ tree_text (view tree.now)) }
{
    match tree {
        Expression::Constant(constant) => constant_text(alloc, constant),
        Expression::Name(name) => joined(alloc, &[name.bytes()]),
        Expression::Bracketed(inner) => expression_text(alloc, inner),
        Expression::FormatString(parts) => {
            let parts = parts_text(alloc, parts)?;
            joined(alloc, &[b"(f ", &parts, b")"])
        }
        Expression::Attribute(base, name) => member_text(alloc, base, name.bytes()),
        Expression::Subscript(base, index) => {
            let base = expression_text(alloc, base)?;
            let index = expression_text(alloc, index)?;
            pair_text(alloc, b"[]", &base, &index)
        }
        Expression::Call(function, arguments) => {
            let arguments = spaced_texts(alloc, arguments)?;
            joined(alloc, &[b"(call ", function.name(), &arguments, b")"])
        }
        Expression::MethodCall(base, method) => {
            let member = member_text(alloc, base, method.name())?;
            joined(alloc, &[b"(call ", &member, b")"])
        }
        Expression::Unary(op, operand) => enclosed_text(alloc, prefix(*op), operand, b")"),
        Expression::Binary(op, left, right) => {
            let left = expression_text(alloc, left)?;
            let right = expression_text(alloc, right)?;
            pair_text(alloc, infix(*op), &left, &right)
        }
        Expression::Bool(op, left, right) => {
            let left = expression_text(alloc, left)?;
            let right = expression_text(alloc, right)?;
            pair_text(alloc, choice(*op), &left, &right)
        }
    }
}

/// An expression behind a space.
pub fn spaced_text(alloc: Global, tree: &Expression) -> Result<Vec<u8>, AllocError>
    ensures { IfOk result (λ text. text.items ≡ spaced_text (view tree.now)) }
{
    let text = expression_text(alloc, tree)?;
    joined(alloc, &[b" ", &text])
}
