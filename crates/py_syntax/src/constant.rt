//! Constants.

use port_io::Name;

/// A constant (the language reference, 2.4 and 3.2).
#[derive(Drop)]
pub enum Const {
    /// `None`
    Absent,
    /// `True` or `False`
    Truth(bool),
    /// A whole number.
    Whole(i128),
    /// A text, seen as its bytes.
    Text(Name),
    /// What a name stands for that is defined elsewhere: a module's constant, or a kind of fault.
    Named(Name),
}
