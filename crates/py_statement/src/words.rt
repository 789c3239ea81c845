//! The tokens that decide which statement or header a line is.

ghost use Rattle.std.specs.Prelude.{◌≡◌, Some, None, MatchOption};
ghost use Rattle.py_syntax.specs.StatementTables;
ghost use Rattle.py_expression.specs.Phrase.Gives.{Gives};
ghost use Rattle.py_statement.specs.Words;

use py_expression::phrase::{ReadError, name_at};
use py_syntax::{BinOp, FaultKind, Keyword, Operator, Token};

/// The reserved word at the front, and the tokens after it.
pub fn keyword_at(tokens: &[Token]) -> Option<(Keyword, &[Token])>
    ensures { MatchOption result (Words.keyword_at tokens.now ≡ None) (λ x. Words.keyword_at tokens.now ≡ Some (x.0, x.1.now)) }
{
    match tokens.split_first() {
        Some((Token::Keyword(keyword), rest)) => Some((*keyword, rest)),
        _ => None,
    }
}

/// The operator before the `=` of an assignment.
fn augmenting(mark: Operator) -> Option<BinOp>
    ensures { result ≡ StatementTables.augmenting mark }
{
    match mark {
        Operator::PlusAssign => Some(BinOp::Add),
        Operator::MinusAssign => Some(BinOp::Subtract),
        Operator::TimesAssign => Some(BinOp::Multiply),
        Operator::FloorDivideAssign => Some(BinOp::FloorDivide),
        Operator::ModuloAssign => Some(BinOp::Modulo),
        Operator::AndAssign => Some(BinOp::BitAnd),
        Operator::OrAssign => Some(BinOp::BitOr),
        Operator::XorAssign => Some(BinOp::BitXor),
        Operator::ShiftLeftAssign => Some(BinOp::ShiftLeft),
        Operator::ShiftRightAssign => Some(BinOp::ShiftRight),
        _ => None,
    }
}

/// The operator of `+=` or the like, and the tokens after it.
pub fn augmenting_at(tokens: &[Token]) -> Option<(BinOp, &[Token])>
    ensures { MatchOption result (Words.augmenting_at tokens.now ≡ None) (λ x. Words.augmenting_at tokens.now ≡ Some (x.0, x.1.now)) }
{
    match tokens.split_first() {
        Some((Token::Operator(mark), rest)) => Some((augmenting(*mark)?, rest)),
        _ => None,
    }
}

/// Wrong unless `:` alone follows.
pub fn colon_of_line(tokens: &[Token]) -> Result<(), ReadError>
    ensures { Gives (λ _. tt) result (Words.colon_of tokens.now) }
{
    match tokens {
        [Token::Operator(Operator::Colon)] => Ok(()),
        _ => Err(ReadError::Wrong),
    }
}

/// The kind of fault whose name stands at the front, and the tokens after it.
pub fn kind_at(tokens: &[Token]) -> Option<(FaultKind, &[Token])>
    ensures { MatchOption result (Words.kind_at tokens.now ≡ None) (λ x. Words.kind_at tokens.now ≡ Some (x.0, x.1.now)) }
{
    let (name, rest) = name_at(tokens)?;
    Some((FaultKind::of(name.bytes())?, rest))
}
