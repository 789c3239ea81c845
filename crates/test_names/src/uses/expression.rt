//! Expressions.

ghost use Rattle.std.specs.Prelude.{◌≡◌};
ghost use Rattle.std.specs.List.{flat_map};
ghost use Rattle.py_syntax.specs.ExpressionTrees.{NoPart, view, view_part};
ghost use Rattle.test_meaning.specs.Rules.Uses.{parts_uses, tree_uses};
ghost use Rattle.test_names.specs.Uses.Answer.{answer};

use crate::uses::{Scope, first_of};
use py_syntax::{Expression, FormatPart};
use test_meaning::rules::FileRule;

/// The rule that the uses of an expression break.
#[cycle(expressions)]
pub fn of_tree<S: Scope>(scope: &S, tree: &Expression) -> Option<FileRule>
    ensures { result ≡ answer (S.file scope.now) (S.around scope.now) (tree_uses (view tree.now)) }
{
    match tree {
        Expression::Constant(_) => None,
        Expression::FormatString(parts) => of_parts(scope, parts),
        Expression::Name(name) => scope.reads(name.bytes()),
        Expression::Bracketed(inner)
        | Expression::Attribute(inner, _)
        | Expression::MethodCall(inner, _)
        | Expression::Unary(_, inner) => of_tree(scope, inner),
        Expression::Call(function, arguments) => {
            first_of(scope.needs(function.name()), of_trees(scope, arguments))
        }
        Expression::Subscript(base, index) => first_of(of_tree(scope, base), of_tree(scope, index)),
        Expression::Binary(_, left, right) => first_of(of_tree(scope, left), of_tree(scope, right)),
        Expression::Bool(_, left, right) => first_of(of_tree(scope, left), of_tree(scope, right)),
    }
}

/// The rule that the uses of expressions break.
#[cycle(expressions)]
pub fn of_trees<S: Scope>(scope: &S, trees: &[Expression]) -> Option<FileRule>
    ensures { result ≡ answer (S.file scope.now) (S.around scope.now) (flat_map (λ e. tree_uses (view e)) trees.now) }
{
    let mut found = None;
    for tree in trees {
        found = first_of(found, of_tree(scope, tree));
    }
    found
}

/// The rule that the uses of an f-string's part break.
#[cycle(expressions)]
fn of_part<S: Scope>(scope: &S, part: &FormatPart) -> Option<FileRule>
    ensures { result ≡ answer (S.file scope.now) (S.around scope.now) (parts_uses (view_part part.now NoPart)) }
{
    match part {
        FormatPart::Text(_) => None,
        FormatPart::Formatted(tree) => of_tree(scope, tree),
    }
}

/// The rule that the uses of an f-string's parts break.
#[cycle(expressions)]
fn of_parts<S: Scope>(scope: &S, parts: &[FormatPart]) -> Option<FileRule>
    ensures { result ≡ answer (S.file scope.now) (S.around scope.now) (flat_map (λ p. parts_uses (view_part p NoPart)) parts.now) }
{
    let mut found = None;
    for part in parts {
        found = first_of(found, of_part(scope, part));
    }
    found
}
