//! A plain simulator of Verilog designs (IEEE 1364-2005), over lists.
//!
//! [`ListKernel`] keeps the interface `Gpi`; begin with [`ListKernel::new`] and `load`. Its state is the lists of the definition
//! (`Rattle.gpi.specs.State`): active processes, changes still to be told, updates that are due or wait, and what each signal
//! shows and hides. One event is one call of `advance`. What an activation does is `gpi`'s (`Act::run`); the registered keys are
//! kept in a `callback_book::Book`, with the times beside it.
#![tactic(auto)]

mod kernel;
mod registered;
mod run;
mod updates;
mod values;
mod wake;

pub use kernel::ListKernel;
