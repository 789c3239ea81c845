//! Laws of the definitions.

ghost use Rattle.std.specs.Prelude.{◌≡◌, ℕ, ◌≤◌, ◌<◌, List};
ghost use Rattle.py_syntax.specs.StatementTrees.{BodyLine, line_height};
ghost use Rattle.py_syntax.specs.StatementForms.{SpellsLine};
ghost use Rattle.py_syntax.specs.declared.token.Token.{Token};
ghost use Rattle.py_statement.specs.Lines.{fits, too_high, no_form, line_of};

/// Whatever the limit on heights is, 1 at least, a logical line has the form that spells it. Where its height is over the limit,
/// some form spells it that is so high; and where it has none, no form spells it.
pub fn lines_have_their_forms()
    ensures fits { (limit : ℕ) → 1 ≤ limit → (ts : List Token) (l : BodyLine)
        → line_of limit ts ≡ fits l → SpellsLine l ts × (line_height l ≤ limit) }
    ensures again { (limit : ℕ) → 1 ≤ limit → (l : BodyLine) (ts : List Token) → SpellsLine l ts → line_height l ≤ limit → line_of limit ts ≡ fits l }
    ensures high { (limit : ℕ) → 1 ≤ limit → (ts : List Token) → line_of limit ts ≡ too_high
        → (l : BodyLine) × SpellsLine l ts × (limit < line_height l) }
    ensures none { (limit : ℕ) → 1 ≤ limit → (ts : List Token) → line_of limit ts ≡ no_form → (l : BodyLine) → SpellsLine l ts → ⊥ }
{}

/// At most one form spells a line, however high.
pub fn one_form()
    ensures { (l m : BodyLine) (ts : List Token) → SpellsLine l ts → SpellsLine m ts → l ≡ m }
{}
