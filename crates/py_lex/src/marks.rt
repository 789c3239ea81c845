//! Brackets and operators.

ghost use Rattle.std.specs.Prelude.{◌≡◌, IfSome};
ghost use Rattle.py_syntax.specs.Marks;
ghost use Rattle.py_lex.specs.Fits.{IsSpelled};

use py_syntax::{Bracket, Operator, Token};

/// The bracket that a byte is.
pub fn bracket_of(byte: u8) -> Option<Token>
    ensures { result ≡ Marks.bracket_of byte }
{
    match byte {
        b'(' => Some(Token::Open(Bracket::Round)),
        b')' => Some(Token::Close(Bracket::Round)),
        b'[' => Some(Token::Open(Bracket::Square)),
        b']' => Some(Token::Close(Bracket::Square)),
        _ => None,
    }
}

fn single(byte: u8) -> Option<Operator>
    ensures { result ≡ Marks.single byte }
{
    match byte {
        b',' => Some(Operator::Comma),
        b'.' => Some(Operator::Dot),
        b':' => Some(Operator::Colon),
        b'@' => Some(Operator::At),
        b'~' => Some(Operator::Invert),
        b'=' => Some(Operator::Assign),
        b'<' => Some(Operator::Less),
        b'>' => Some(Operator::Greater),
        b'|' => Some(Operator::Or),
        b'^' => Some(Operator::Xor),
        b'&' => Some(Operator::And),
        b'+' => Some(Operator::Plus),
        b'-' => Some(Operator::Minus),
        b'*' => Some(Operator::Times),
        b'%' => Some(Operator::Modulo),
        _ => None,
    }
}

fn with_equals(byte: u8) -> Option<Operator>
    ensures { result ≡ Marks.with_equals byte }
{
    match byte {
        b'=' => Some(Operator::Equal),
        b'!' => Some(Operator::NotEqual),
        b'<' => Some(Operator::LessEqual),
        b'>' => Some(Operator::GreaterEqual),
        b'|' => Some(Operator::OrAssign),
        b'^' => Some(Operator::XorAssign),
        b'&' => Some(Operator::AndAssign),
        b'+' => Some(Operator::PlusAssign),
        b'-' => Some(Operator::MinusAssign),
        b'*' => Some(Operator::TimesAssign),
        b'%' => Some(Operator::ModuloAssign),
        _ => None,
    }
}

fn doubled(byte: u8) -> Option<Operator>
    ensures { result ≡ Marks.doubled byte }
{
    match byte {
        b'<' => Some(Operator::ShiftLeft),
        b'>' => Some(Operator::ShiftRight),
        b'/' => Some(Operator::FloorDivide),
        _ => None,
    }
}

fn doubled_with_equals(byte: u8) -> Option<Operator>
    ensures { result ≡ Marks.doubled_with_equals byte }
{
    match byte {
        b'<' => Some(Operator::ShiftLeftAssign),
        b'>' => Some(Operator::ShiftRightAssign),
        b'/' => Some(Operator::FloorDivideAssign),
        _ => None,
    }
}

/// The longest operator at the front of a text that begins with these bytes, and its length.
#[tactic(auto, using(crate::proofs::Bounds::operator_spelled), unfolding(py_syntax::specs::Marks::operator_at))]
pub fn operator_at(first: u8, second: u8, third: u8) -> Option<(Operator, usize)>
    ensures value { result ≡ Marks.operator_at first second third }
    ensures spelled { IfSome result (λ x. IsSpelled second third x.1) }
{
    if first == second {
        if third == b'='
            && let Some(operator) = doubled_with_equals(first)
        {
            return Some((operator, 3));
        }
        if let Some(operator) = doubled(first) {
            return Some((operator, 2));
        }
    }
    if second == b'='
        && let Some(operator) = with_equals(first)
    {
        return Some((operator, 2));
    }
    let operator = single(first)?;
    Some((operator, 1))
}
