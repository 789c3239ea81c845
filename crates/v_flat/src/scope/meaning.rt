//! What a name may mean.

use four_value::Bits;

/// A declared range, `[left:right]` (IEEE 1364-2005, clauses 4.3.1 and 4.9).
#[derive(Clone, Copy)]
pub struct Bounds {
    /// The index of the highest digit of a vector, or one end of a memory's words.
    pub left: u32,
    /// The index of the lowest digit of a vector, or the other end of a memory's words.
    pub right: u32,
}

/// What gives a data object its value.
#[derive(Clone, Copy)]
pub enum DataKind {
    /// An `input`: the outside of the instance (clause 12.3.3).
    Input,
    /// Another net: continuous assignments (clause 4.2).
    Net,
    /// A `reg` or an `integer`: procedural assignments (clause 4.2.2).
    Register,
}

/// A net, a register or a memory as it is declared (clause 4).
#[derive(Clone, Copy)]
pub struct DataObject {
    /// What gives it its value.
    pub kind: DataKind,
    /// The number of its signal in the design, or of a memory's first word.
    pub first: u32,
    /// The range of its digits, or of those of each word.
    pub bounds: Bounds,
    /// The range of a memory's words; none of what is no memory.
    pub words: Option<Bounds>,
}

/// What a name means in an instance.
#[derive(Drop)]
pub enum Meaning {
    /// A parameter, or the variable of a loop in one of its turns: its value and range.
    Constant(Bits, Bounds),
    /// A net, a register or a memory.
    Object(DataObject),
    /// A name that is declared, where constants alone are known and it is none of them.
    Later,
}
