//! A statement at the front of some tokens.

ghost use Rattle.std.specs.Prelude.{◌≡◌, ◌+◌, ◌<◌, ℕ, List, [], length, IfOk, IfErr, IsTrue};
ghost use Rattle.v_syntax.specs.declared.token.Token.{Token};
ghost use Rattle.v_syntax.specs.declared.word.Keyword.TheVariants as word;
ghost use Rattle.v_syntax.specs.declared.statement.StatementPlace.{StatementPlace};
ghost use Rattle.v_syntax.specs.StatementTrees.{StatementTree, view};
ghost use Rattle.v_syntax.specs.Statements;
ghost use Rattle.v_syntax.specs.Statements.{IsClosed};
ghost use Rattle.v_expression.specs.Phrase.Stops.{Gives};
ghost use Rattle.v_expression.specs.Phrase.Refusals.{IsRefusal, IsRead};
ghost use Rattle.v_expression.specs.Phrase.Readers.{starts_word};
ghost use Rattle.v_statement.specs.Reading.{statement_of};

use crate::statements::statement_at;
use std::alloc::Global;
use v_expression::phrase::ReadError;
use v_syntax::{Statement, StatementPlace, Token};

/// Reads a statement (IEEE 1364-2005, annex A.6.4) that stands in that place, at the front of the tokens, which are the last
/// of a text of `total` tokens. Its height is at most `room + 1`. Also gives the tokens behind it.
pub fn statement(
    alloc: Global,
    total: usize,
    room: usize,
    place: StatementPlace,
    tokens: &[Token],
) -> Result<(Box<Statement>, &[Token]), ReadError>
    requires { room < 1000 }
    ensures gives { Gives (λ x. (view x.0.value, x.1.now)) result (statement_of total room place tokens.now) }
    // What is read is a statement that spells the tokens up to those that are given, within the height.
    ensures found { IfOk result (λ x. (Statements.statement total (room + 1) place).whole (view x.0.value) tokens.now x.1.now) }
    // A statement within the height is read, unless memory runs out, where an `else` that follows belongs to no part of it.
    ensures only { (s : StatementTree) (rest : List Token) → (Statements.statement total (room + 1) place).whole s tokens.now rest
        → (IsTrue (starts_word word.Else rest) → IsClosed s) → IsRead (λ x. (view x.0.value ≡ s) × (x.1.now ≡ rest)) result }
    // A refusal is at the first token that no partial statement within the height spells.
    ensures refused { IfErr result (λ e. IsRefusal (λ n rest. (Statements.statement total n place).front tokens.now rest) (room + 1) e) }
{
    statement_at(alloc, total, room, place, tokens)
}

/// A text has at most one statement.
pub fn one_statement()
    ensures { (place : StatementPlace) (n m : ℕ) (s t : StatementTree) (text : List Token)
        → (Statements.statement (length text) n place).whole s text [] → (Statements.statement (length text) m place).whole t text [] → s ≡ t }
{}
