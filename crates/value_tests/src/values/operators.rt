//! Operators by their spelling.

use py_syntax::{BinOp, UnOp};

/// The operator with two operands.
pub fn binary_of(word: &[u8]) -> Option<BinOp> {
    match word {
        b"==" => Some(BinOp::Equal),
        b"!=" => Some(BinOp::NotEqual),
        b"<" => Some(BinOp::Less),
        b"<=" => Some(BinOp::LessEqual),
        b">" => Some(BinOp::Greater),
        b">=" => Some(BinOp::GreaterEqual),
        b"is" => Some(BinOp::Is),
        b"is not" => Some(BinOp::IsNot),
        b"|" => Some(BinOp::BitOr),
        b"^" => Some(BinOp::BitXor),
        b"&" => Some(BinOp::BitAnd),
        b"<<" => Some(BinOp::ShiftLeft),
        b">>" => Some(BinOp::ShiftRight),
        b"+" => Some(BinOp::Add),
        b"-" => Some(BinOp::Subtract),
        b"*" => Some(BinOp::Multiply),
        b"//" => Some(BinOp::FloorDivide),
        b"%" => Some(BinOp::Modulo),
        _ => None,
    }
}

/// The operator with one operand.
pub fn unary_of(word: &[u8]) -> Option<UnOp> {
    match word {
        b"not" => Some(UnOp::Not),
        b"neg" => Some(UnOp::Negative),
        b"pos" => Some(UnOp::Positive),
        b"~" => Some(UnOp::Invert),
        _ => None,
    }
}
