//! Tokens as text.
//!
//! Names and brackets stand as they are, reserved words behind `!`, numbers behind `#`, texts between quotes, operators by name,
//! an f-string from `f"` to `"f` with its own text between `'`, and `?` is what no form takes.
ghost use Rattle.std.specs.Prelude.{◌≡◌, ◌++◌, IfOk};
ghost use Rattle.python_tests.specs.Shown.{closing_text, opening_text, operator_name, token_text};

use py_syntax::{Bracket, Operator, Token};
use std::alloc::{AllocError, Global};

/// An opening bracket.
fn opening(bracket: Bracket) -> &'static [u8]
    ensures { result.now ≡ opening_text bracket }
{
    match bracket {
        Bracket::Round => b"(",
        Bracket::Square => b"[",
    }
}

/// A closing bracket.
fn closing(bracket: Bracket) -> &'static [u8]
    ensures { result.now ≡ closing_text bracket }
{
    match bracket {
        Bracket::Round => b")",
        Bracket::Square => b"]",
    }
}

/// The name of an operator or a delimiter.
fn name_of(operator: Operator) -> &'static [u8]
    ensures { result.now ≡ operator_name operator }
{
    match operator {
        Operator::Comma => b"Comma",
        Operator::Dot => b"Dot",
        Operator::Colon => b"Colon",
        Operator::At => b"At",
        Operator::Invert => b"Invert",
        Operator::Assign => b"Assign",
        Operator::Less => b"Less",
        Operator::Greater => b"Greater",
        Operator::Or => b"Or",
        Operator::Xor => b"Xor",
        Operator::And => b"And",
        Operator::Plus => b"Plus",
        Operator::Minus => b"Minus",
        Operator::Times => b"Times",
        Operator::Modulo => b"Modulo",
        Operator::Equal => b"Equal",
        Operator::NotEqual => b"NotEqual",
        Operator::LessEqual => b"LessEqual",
        Operator::GreaterEqual => b"GreaterEqual",
        Operator::ShiftLeft => b"ShiftLeft",
        Operator::ShiftRight => b"ShiftRight",
        Operator::FloorDivide => b"FloorDivide",
        Operator::OrAssign => b"OrAssign",
        Operator::XorAssign => b"XorAssign",
        Operator::AndAssign => b"AndAssign",
        Operator::PlusAssign => b"PlusAssign",
        Operator::MinusAssign => b"MinusAssign",
        Operator::TimesAssign => b"TimesAssign",
        Operator::ModuloAssign => b"ModuloAssign",
        Operator::ShiftLeftAssign => b"ShiftLeftAssign",
        Operator::ShiftRightAssign => b"ShiftRightAssign",
        Operator::FloorDivideAssign => b"FloorDivideAssign",
    }
}

/// A text between two quotes. Only want of memory is an error, here and below.
fn quoted(alloc: Global, quote: &[u8], text: &[u8]) -> Result<Vec<u8>, AllocError>
    ensures { IfOk result (λ shown. shown.items ≡ quote.now ++ text.now ++ quote.now) }
{
    let mut shown = quote.to_vec(alloc)?;
    shown.extend_from_slice(text)?;
    shown.extend_from_slice(quote)?;
    Ok(shown)
}

/// A text behind a mark.
fn marked(alloc: Global, mark: &[u8], text: &[u8]) -> Result<Vec<u8>, AllocError>
    ensures { IfOk result (λ shown. shown.items ≡ mark.now ++ text.now) }
{
    let mut shown = mark.to_vec(alloc)?;
    shown.extend_from_slice(text)?;
    Ok(shown)
}

/// A token.
pub fn token_text(alloc: Global, token: &Token) -> Result<Vec<u8>, AllocError>
    ensures { IfOk result (λ text. text.items ≡ token_text token.now) }
{
    match token {
        Token::Name(name) => name.bytes().to_vec(alloc),
        Token::Keyword(keyword) => marked(alloc, b"!", keyword.bytes()),
        Token::Number(number) => Ok(format!(in alloc; "#{number}")?.into_bytes()),
        Token::Text(text) => quoted(alloc, b"\"", text.bytes()),
        Token::Open(bracket) => opening(*bracket).to_vec(alloc),
        Token::Close(bracket) => closing(*bracket).to_vec(alloc),
        Token::Operator(operator) => name_of(*operator).to_vec(alloc),
        Token::FormatStart => b"f\"".to_vec(alloc),
        Token::FormatText(text) => quoted(alloc, b"'", text.bytes()),
        Token::FormatOpen => b"{".to_vec(alloc),
        Token::FormatClose => b"}".to_vec(alloc),
        Token::FormatEnd => b"\"f".to_vec(alloc),
        Token::Invalid => b"?".to_vec(alloc),
    }
}
