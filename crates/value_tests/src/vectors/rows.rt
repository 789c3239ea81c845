//! The rows of the table.
use crate::vectors::calls::outcome;
use crate::vectors::fields::{digit, vector};
use four_value::{Edge, edge};

/// Whether the call of a row answers what the row's last field says; `None` where the row isn't one.
pub fn agrees(row: &str) -> Option<bool> {
    let (call, fields) = row.split_once(' ')?;
    let (operands, answer) = fields.rsplit_once(' ')?;
    match call {
        "width" => Some(vector(operands)?.width() == answer.parse::<u8>().ok()?),
        "to_number" => Some(vector(operands)?.to_number() == answer.parse::<u128>().ok()),
        "text" => shows(vector(operands)?.text().as_slice(), answer),
        "edge" => Some(edge_of(operands)? == named_edge(answer)?),
        _ => Some(outcome(call, operands)?.is_same(vector(answer)?)),
    }
}

/// Whether the bytes are the answer and then spaces.
fn shows(bytes: &[u8], answer: &str) -> Option<bool> {
    let (digits, rest) = bytes.split_at_checked(answer.len())?;
    Some(digits == answer.as_bytes() && rest.iter().all(|byte| *byte == b' '))
}

fn edge_of(operands: &str) -> Option<Edge> {
    let (old, new) = operands.split_once(' ')?;
    Some(edge(digit(old)?, digit(new)?))
}

fn named_edge(name: &str) -> Option<Edge> {
    match name {
        "posedge" => Some(Edge::Pos),
        "negedge" => Some(Edge::Neg),
        "neither" => Some(Edge::None),
        _ => None,
    }
}
