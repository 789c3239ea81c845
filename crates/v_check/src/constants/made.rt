//! Whether an expression is made of constants.

ghost use Rattle.std.specs.Prelude.{◌≡◌};
ghost use Rattle.v_flat.specs.Scope.Scope.{find, means};
ghost use Rattle.v_syntax.specs.ExpressionTrees.{view, view_select, view_selects, views};
ghost use Rattle.v_flat.specs.Checks.{all_made, is_constant, made, select_made, selects_made};

use v_flat::scope::{Meaning, Scope};
use v_syntax::{Expression, Select, Selects};

/// Whether a name is that of a constant: a parameter, or a variable of a loop.
pub fn is_constant(scope: &Scope, name: &[u8]) -> bool
    ensures { result ≡ is_constant (find name.now (means scope.now)) }
{
    match scope.find(name) {
        Some(Meaning::Constant(_, _)) => true,
        Some(_) | None => false,
    }
}

/// Whether an expression is made of numbers, parameters and variables of loops (clause 5).
#[cycle(made)]
pub fn is_made(scope: &Scope, expression: &Expression) -> bool
    ensures { result ≡ made (means scope.now) (view expression.now) }
{
    match expression {
        Expression::Number { .. } => true,
        Expression::Operand(operand) => {
            is_constant(scope, operand.name.bytes()) && are_selects_made(scope, &operand.selects)
        }
        Expression::Bracketed { inner, .. } => is_made(scope, inner),
        Expression::Unary { operand, .. } => is_made(scope, operand),
        Expression::Binary { left, right, .. } => is_made(scope, left) && is_made(scope, right),
        Expression::Conditional { condition, yes, no } => {
            is_made(scope, condition) && (is_made(scope, yes) && is_made(scope, no))
        }
        Expression::Concatenation { parts, .. } => are_made(scope, parts),
        Expression::Replication { count, parts, .. } => {
            is_made(scope, count) && are_made(scope, parts)
        }
    }
}

/// Whether all of these expressions are.
#[cycle(made)]
fn are_made(scope: &Scope, expressions: &[Expression]) -> bool
    ensures { result ≡ all_made (means scope.now) (views expressions.now) }
{
    for expression in expressions {
        if !is_made(scope, expression) {
            return false;
        }
    }
    true
}

/// Whether the expressions in these selects are.
#[cycle(made)]
fn are_selects_made(scope: &Scope, selects: &Selects) -> bool
    ensures { result ≡ selects_made (means scope.now) (view_selects selects.now) }
{
    match selects {
        Selects::Whole => true,
        Selects::One(select) => is_select_made(scope, select),
        Selects::OfWord { word, select, .. } => {
            is_made(scope, word) && is_select_made(scope, select)
        }
    }
}

/// Whether the expressions in a select are.
#[cycle(made)]
fn is_select_made(scope: &Scope, select: &Select) -> bool
    ensures { result ≡ select_made (means scope.now) (view_select select.now) }
{
    match select {
        Select::Bit { index, .. } => is_made(scope, index),
        Select::Part { left, right, .. } => is_made(scope, left) && is_made(scope, right),
        Select::IndexedPart { base, width, .. } => is_made(scope, base) && is_made(scope, width),
    }
}
