//! What a change of a digit is.

/// What a change of a digit is to an event control (clause 9.7.2).
#[derive(Clone, Copy, Debug, PartialEq, Eq)]
pub enum Edge {
    /// A `posedge`: a change towards 1.
    Pos,
    /// A `negedge`: a change towards 0.
    Neg,
    /// Neither: no change, or one between x and z.
    None,
}
