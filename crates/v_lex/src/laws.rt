//! Laws of the definition of a text's tokens.

ghost use Rattle.std.specs.Prelude.{◌≡◌, ◌↔◌, List, ℕ, true, false, not, ◌&&◌, ◌++◌, ◌∷◌, []};
ghost use Rattle.std.specs.List.{list_all};
ghost use Rattle.v_syntax.specs.declared.token.Token.TheVariants as token;
ghost use Rattle.v_syntax.specs.declared.word.Keyword.TheVariants as word;
ghost use Rattle.v_lex.specs.declared.directive.Content.TheVariants as content;
ghost use Rattle.v_lex.specs.Lexing.{State, start, is_taken};
ghost use Rattle.v_lex.specs.Row.{Part, IsRowOf, Stands, spelled, told};
ghost use Rattle.v_lex.specs.Defines.{IsDefined};
ghost use Rattle.v_lex.specs.Units.{IsUnit, units_of};
ghost use Rattle.v_lex.specs.Conditionals.{state_after, place_behind, Opening, role_of, is_unbroken, holds, MayBeSkipped};
ghost use Rattle.v_lex.specs.Conditionals.{IsGroup, IsClosed, Branch, written, IsConditional, is_branch_taken, takes_one};

/// A text is one row of parts, and of no other, and these parts are all its bytes.
pub fn one_row()
    ensures some { (text : List ℕ) → (row : List Part) × IsRowOf row text }
    ensures one { (text : List ℕ) (row other : List Part) → IsRowOf row text → IsRowOf other text → row ≡ other }
    ensures whole { (text : List ℕ) (row : List Part) → IsRowOf row text → spelled row ≡ text }
{}

/// What is defined and what is taken (IEEE 1364-2005, clauses 19.3 and 19.4). A part stands as taken or not as the directives
/// before it say (`stands`); what isn't taken holds no token, and no directive but those of conditionals (`skipped`). A name is
/// defined where the last `define` or `undef` of it says so, and COCOTB_SIM where there is none (`defined`). Of a conditional the
/// first branch is taken where what stands around the conditional is and its condition holds (`first`); a further one where
/// besides none before it was, and an `else` has no condition (`further`): so at most one is (`at_most_one`). Inside of what isn't taken nothing is
/// (`inside`), and behind whole conditionals what is taken is as before them (`closed`). Just the rows whose parts are unbroken and whose
/// conditionals are whole break no rule (`balanced`), and whole conditionals are closed ones (`grouped`).
pub fn conditionals()
    ensures stands { (before : List Part) (part : Part) (rest : List Part) (text : List ℕ)
        → IsRowOf (before ++ part ∷ rest) text
        → Stands (is_taken (state_after start 0 before).conditionals) part.content part.bytes (spelled rest) }
    ensures skipped { (before : List Part) (part : Part) (rest : List Part) (text : List ℕ)
        → IsRowOf (before ++ part ∷ rest) text → is_taken (state_after start 0 before).conditionals ≡ false
        → MayBeSkipped part.content (part.bytes ++ spelled rest) }
    ensures defined { (name : List ℕ) (parts : List Part)
        → ((state_after start 0 parts).defined name ≡ true) ↔ IsDefined name parts }
    ensures first { (s : State) (place : ℕ) (part : Part) → role_of part.content ≡ Opening
        → is_branch_taken s place part ≡ is_taken s.conditionals && holds s part.content }
    ensures further { (s : State) (place : ℕ) (first : Branch) (more : List Branch) (last : Part) → IsConditional first more last
        → is_branch_taken (state_after s place (written (first ∷ more))) (place_behind place (written (first ∷ more))) last
        ≡ (is_taken s.conditionals && not (takes_one s place (first ∷ more)))
        && holds (state_after s place (written (first ∷ more))) last.content }
    ensures at_most_one { (s : State) (place : ℕ) (first : Branch) (more : List Branch) (last : Part) → IsConditional first more last
        → takes_one s place (first ∷ more) ≡ true
        → is_branch_taken (state_after s place (written (first ∷ more))) (place_behind place (written (first ∷ more))) last ≡ false }
    ensures inside { (s : State) (place : ℕ) (before rest : List Part) → is_taken s.conditionals ≡ false
        → IsClosed false (before ++ rest) → is_taken (state_after s place before).conditionals ≡ false }
    ensures closed { (s : State) (place : ℕ) (parts : List Part) → IsClosed false parts
        → (state_after s place parts).conditionals ≡ s.conditionals }
    ensures balanced { (row : List Part)
        → ((told row).faults ≡ []) ↔ ((list_all (λ p. is_unbroken p.content) row ≡ true) × IsGroup row) }
    ensures grouped { (parts : List Part) → IsGroup parts → IsClosed false parts }
{}

/// The unit of time (IEEE 1364-2005, clauses 19.6 and 19.8). Behind parts of a text, from its start on, it is that of the last
/// `timescale`, and 1 ns where there is none or a `resetall` stands behind it (`unit`). Of the units that are told for the tokens
/// `module` one after the other, each is the one behind the parts before its token (`each`).
pub fn units()
    ensures unit { (parts : List Part) (unit : ℕ) → ((state_after start 0 parts).unit ≡ unit) ↔ IsUnit unit parts }
    ensures each { (before : List Part) (part : Part) (rest : List Part) → part.content ≡ content.Token (token.Keyword word.Module)
        → (later : List ℕ) × (units_of (before ++ part ∷ rest) ≡ units_of before ++ (state_after start 0 before).unit ∷ later) }
{}
