//! Attributes.

ghost use Rattle.std.specs.Prelude.{◌≡◌, Some, None, MatchOption};
ghost use Rattle.py_syntax.specs.ExpressionTrees.{view};
ghost use Rattle.py_expression.specs.Attributes.{split_of};

use port_io::Name;
use py_syntax::Expression;

/// An attribute's object and name (the language reference, 6.3.1). None where the tree is no attribute.
#[tactic(auto, unfolding(crate::specs::Attributes::split_of))]
pub fn split(tree: Expression) -> Option<(Box<Expression>, Name)>
    ensures { MatchOption result (split_of (view tree) ≡ None) (λ x. split_of (view tree) ≡ Some (view x.0.value, x.1)) }
{
    match tree {
        Expression::Attribute(base, name) => Some((base, name)),
        _ => None,
    }
}
