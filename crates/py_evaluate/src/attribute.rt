//! What attributes, indices and calls give of a value, by itself and by what a task sees of a running simulation.
//!
//! By itself: [`path_attribute`] gives `_path` and `_name` of a signal or a hierarchy by its path, [`vector_attribute`] the
//! attributes of a vector, [`indexed`] a word of a memory, [`str_value`] the text of any value, and [`signal_of`] the signal that
//! a value is. Texts have at most 65,536 bytes ([`text_value`]).
//!
//! [`Look`] is what a task sees: signals, the time, the names below a hierarchy, events, locks, queues and tasks. [`Locals`] are the names
//! of its function. By them [`attribute`] gives an attribute of any value, [`len`] the width of a signal, [`one_bit`] a signal of
//! one digit, [`str_text`] and [`shown_text`] texts, and [`operated`] what an operator gives, where a signal beside a value stands
//! for its own value. Each asks that the view knows its operands.
mod attributes;
mod fault;
mod index;
mod look;
mod looked_text;
mod names;
mod operation;
mod path;
mod text;
mod vector;

pub use attributes::{attribute, len, one_bit};
pub use fault::OperationFault;
pub use index::{indexed, signal_of};
pub use look::Look;
pub use looked_text::{shown_text, str_text};
pub use names::Locals;
pub use operation::operated;
pub use path::path_attribute;
pub use text::{str_value, text_value};
pub use vector::vector_attribute;
