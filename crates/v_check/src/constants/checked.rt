//! Expressions that were checked.

use crate::contextual::Contextual;

/// An expression that was checked. Where no rule is broken in it, it is the expression in each context; where one is, only the
/// width counts.
#[derive(Drop)]
pub struct Checked {
    /// The number of digits that it has by itself (IEEE 1364-2005, clause 5.4.1), where `TOO_WIDE` of `v_flat::scope` stands for more than 128.
    pub width: u8,
    /// What it is in each context.
    pub form: Contextual,
}
