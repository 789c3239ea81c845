//! Laws of the definitions: what is read is what is kept of a form that spells the tokens, and such a form is read as what is kept of
//! it, whatever the limit on heights is.

ghost use Rattle.std.specs.Prelude.{◌≡◌, ℕ, ◌≤◌, ◌<◌, true, List, Some};
ghost use Rattle.py_syntax.specs.StatementTrees.{
  StartedCall,
  Awaited,
  RightSide,
  WriteAction,
  started_height,
  awaited_height,
  right_height,
  write_action_height,
};
ghost use Rattle.py_syntax.specs.CallForms.{SpellsStarted, SpellsAwaited, SpellsRight, SpellsAction};
ghost use Rattle.py_syntax.specs.declared.token.Token.{Token};
ghost use Rattle.py_statement.specs.Call.Kept.{kept_started, kept_awaited, kept_right, kept_write_action};
ghost use Rattle.py_statement.specs.Call.Reading.{started_of, awaited_of, right_of, write_action_of};
ghost use Rattle.py_statement.specs.Call.Words.{is_end};

/// Of started calls. They end at the end of the line, before a comma or before `)`.
pub fn started_calls_are_read()
    ensures sound { (limit : ℕ) (ts rest : List Token) (v : StartedCall × ℕ) → started_of limit ts ≡ Some (v, rest)
        → (f : StartedCall) × SpellsStarted f ts rest × (v ≡ kept_started limit f) }
    ensures again { (limit : ℕ) (f : StartedCall) (ts rest : List Token) → SpellsStarted f ts rest
        → is_end rest ≡ true → started_of limit ts ≡ Some (kept_started limit f, rest) }
    ensures whole { (limit : ℕ) (f : StartedCall) → started_height f ≤ limit → kept_started limit f ≡ (f, started_height f) }
    ensures over { (limit : ℕ) (f : StartedCall) → limit < started_height f → limit < (kept_started limit f).1 }
{}

/// Of what is awaited.
pub fn await_operands_are_read()
    ensures sound { (limit : ℕ) (ts : List Token) (v : Awaited × ℕ) → awaited_of limit ts ≡ Some v
        → (a : Awaited) × SpellsAwaited a ts × (v ≡ kept_awaited limit a) }
    ensures again { (limit : ℕ) (a : Awaited) (ts : List Token) → SpellsAwaited a ts → awaited_of limit ts ≡ Some (kept_awaited limit a) }
    ensures whole { (limit : ℕ) (a : Awaited) → awaited_height a ≤ limit → kept_awaited limit a ≡ (a, awaited_height a) }
    ensures over { (limit : ℕ) (a : Awaited) → limit < awaited_height a → limit < (kept_awaited limit a).1 }
{}

/// Of right sides.
pub fn right_sides_are_read()
    ensures sound { (limit : ℕ) (ts : List Token) (v : RightSide × ℕ) → right_of limit ts ≡ Some v
        → (s : RightSide) × SpellsRight s ts × (v ≡ kept_right limit s) }
    ensures again { (limit : ℕ) (s : RightSide) (ts : List Token) → SpellsRight s ts → right_of limit ts ≡ Some (kept_right limit s) }
    ensures whole { (limit : ℕ) (s : RightSide) → right_height s ≤ limit → kept_right limit s ≡ (s, right_height s) }
    ensures over { (limit : ℕ) (s : RightSide) → limit < right_height s → limit < (kept_right limit s).1 }
{}

/// Of writes that are no values. Other tokens may follow them.
pub fn write_actions_are_read()
    ensures sound { (limit : ℕ) (ts rest : List Token) (v : WriteAction × ℕ) → write_action_of limit ts ≡ Some (v, rest)
        → (w : WriteAction) × SpellsAction w ts rest × (v ≡ kept_write_action limit w) }
    ensures again { (limit : ℕ) (w : WriteAction) (ts rest : List Token) → SpellsAction w ts rest
        → write_action_of limit ts ≡ Some (kept_write_action limit w, rest) }
    ensures whole { (limit : ℕ) (w : WriteAction) → write_action_height w ≤ limit → kept_write_action limit w ≡ (w, write_action_height w) }
    ensures over { (limit : ℕ) (w : WriteAction) → limit < write_action_height w → limit < (kept_write_action limit w).1 }
{}
