//! The engine: begins a test, does one turn of it after the other, and ends it, over any maker of tasks, any keeper of waiting tasks and, at each
//! call, any simulator of the design.
//!
//! Begin with [`Engine::new`]. What a turn came to is a [`Turn`], and [`Next`] what becomes of a turn after something that its task wanted. The
//! lines of verdicts, and which test follows which, are left to the crates above. Inside,
//! - `test` is a test that runs: its tasks, what is ready, waits and is awaited, its events, locks and queues, and its random numbers; `apply` does what
//! a task wants;
//! - `teller` has the simulator do its next event or a write at once: what changes is told, and whom the fired keys wake goes into the ring of ready
//! tasks;
//! - `starts` and `limits` are what a test begins with: the values of its arguments, and its limit of time;
//! - `turn_laws` has the laws by which steps make turns, and turns make more of them, and `laws` those on how late a run can come: each step keeps
//! its times   within a bound, which rises by one with each verdict. So the time of a run is at most the latest time that may be waited for, and the
//! number of its tests.
//!
//! Modules that the crates above use too:
//! - [`effect_laws`]: laws of the effects of a test: where its tasks stand.
#![tactic(auto)]

mod apply;
mod begin;
mod constants;
mod draws;
pub mod effect_laws;
mod ends;
mod engine;
mod event;
mod evented;
mod laws;
mod limits;
mod locks;
mod put;
mod puts;
mod queues;
mod starting;
mod starts;
mod teller;
mod test;
mod turn;
mod turn_laws;
mod turned;
mod waits;
mod writes;

pub use engine::Engine;
pub use laws::{
    begin_is_timely, effect_is_timely, end_is_timely, later_bound_is_wider, plan_is_timely,
    run_is_timely, step_is_timely, time_is_bounded, verdicts_are_few,
};
pub use turn_laws::{effects_plan_nothing, turn_falls, waiting_turn_is_one_event};
pub use turned::{Next, Turn};
