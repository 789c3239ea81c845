//! Functions as numbered states: a task keeps the number of the state with which it goes on.
mod functions;
mod numbered;

pub use functions::numbered_functions;
pub use numbered::Numbered;
