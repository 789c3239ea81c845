//! Laws of the definition of designs.

ghost use Rattle.std.specs.Prelude.{◌≡◌, ◌≤◌, List, Option, ℕ};
ghost use Rattle.gpi.specs.declared.design.Flat.{Flat};
ghost use Rattle.v_lex.specs.Lexing.{Lexed};
ghost use Rattle.v_lex.specs.Row.{Reads};
ghost use Rattle.v_design.specs.declared.fault.DesignRefusal.{DesignRefusal};
ghost use Rattle.v_design.specs.Designs.{IsDesign, IsRefused};
ghost use Rattle.v_design.specs.Answers.{AreAlike, HasAnswer};

/// The step of a text that breaks no lexical rule is at least one femtosecond.
pub fn step_is_positive()
    ensures { (text : List ℕ) (read : Lexed) → Reads text read → 1 ≤ read.step }
{}

/// Under each top a text has one answer: it stands for a design or is refused (`some`) and not both (`apart`), two refusals of it are one
/// (`refusal`), and two flat designs that it stands for are alike (`design`).
pub fn one_answer()
    ensures some { (top : Option (List ℕ)) (text : List ℕ) → HasAnswer top text }
    ensures refusal { (top : Option (List ℕ)) (text : List ℕ) (a b : DesignRefusal) → IsRefused top a text → IsRefused top b text → a ≡ b }
    ensures design { (top : Option (List ℕ)) (text : List ℕ) (a b : Flat) → IsDesign top text a → IsDesign top text b → AreAlike a b }
    ensures apart { (top : Option (List ℕ)) (text : List ℕ) (flat : Flat) (refusal : DesignRefusal)
        → IsDesign top text flat → IsRefused top refusal text → ⊥ }
{}
