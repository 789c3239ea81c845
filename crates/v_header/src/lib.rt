//! What a module's header and declarations say before its parameters have values.
//!
//! [`Ports`] are a module's ports as an instance sees them, and [`headed_ports`] those of a header that declares them, with what stands in
//! front of their names. [`parameters_of`] gives the parameters in their order, and [`open_parameters`] the names of those that an override
//! may give. [`later_names`] is the scope of the names that are declared further on. The definitions stand in `v_flat`.
//!
//! Modules that the crates above use too:
//! - [`given`]: the values that an instance gives to parameters;
//! - [`parameter`]: the parameters of an instance;
//! - [`range`]: ranges as they are declared;
//! - [`top`]: the modules of a text, and which of them is the top.
#![tactic(auto)]

pub mod given;
mod heads;
mod names;
pub mod parameter;
mod parameters;
mod ports;
pub mod range;
pub mod top;

pub use heads::{Head, HeadedPort, headed_ports};
pub use names::later_names;
pub use parameters::{Parameter, open_parameters, parameters_of};
pub use ports::{Port, Ports};
