//! Times as steps, and the simulated time in a unit (cocotb 1.8, `Timer`, `Clock` and `get_sim_time`).
//!
//! [`unit_of`] is what a unit has in femtoseconds, [`steps_of`] the number of steps that a time in a unit is, [`half_steps`] half of a
//! clock's period, and [`time_in`] the simulated time in a unit. Units are the texts `step`, `fs`, `ps`, `ns`, `us`, `ms` and `sec`. No
//! call takes memory.
mod period;
mod steps;
mod unit;

pub use period::{half_steps, steps_of};
pub use unit::{time_in, unit_of};
