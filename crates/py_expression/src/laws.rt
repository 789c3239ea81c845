//! Laws of the definitions.

ghost use Rattle.std.specs.Prelude.{◌≡◌, List};
ghost use Rattle.py_syntax.specs.ExpressionTrees.{Tree};
ghost use Rattle.py_syntax.specs.ExpressionSpells.{Spells};
ghost use Rattle.py_syntax.specs.declared.token.Token.{Token};
ghost use Rattle.py_expression.specs.Ends.{Stops};

/// Tokens have at most one expression at their front that nothing goes on with, however high.
pub fn one_expression()
    ensures { (e f : Tree) (ts rest others : List Token) → Spells e ts rest → Stops 1 e rest
        → Spells f ts others → Stops 1 f others → (e ≡ f) × (rest ≡ others) }
{}
