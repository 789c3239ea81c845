//! Expressions that spell targets.

ghost use Rattle.std.specs.Prelude.{◌≡◌, is_some};
ghost use Rattle.v_syntax.specs.ExpressionTrees.{view, views};
ghost use Rattle.v_flat.specs.Targets.{as_target, as_targets};

use v_syntax::Expression;

/// Whether an expression spells a target (IEEE 1364-2005, annex A.8.5): a name with selects, or such targets in braces.
#[cycle(spelling)]
pub fn spells_target(expression: &Expression) -> bool
    ensures { result ≡ is_some (as_target (view expression.now)) }
{
    match expression {
        Expression::Operand(_) => true,
        Expression::Concatenation { parts, .. } => spell_targets(parts),
        _ => false,
    }
}

/// Whether each of these expressions spells a target.
#[cycle(spelling)]
fn spell_targets(expressions: &[Expression]) -> bool
    ensures { result ≡ is_some (as_targets (views expressions.now)) }
{
    for expression in expressions {
        if !spells_target(expression) {
            return false;
        }
    }
    true
}
