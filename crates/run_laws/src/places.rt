//! Where tasks stand in the configurations that runs reach, and what they wait for.
//!
//! Laws over the definitions of `rig_model::run`, and no code: the contract of each function here is a law.
mod laws;

pub use laws::{
    awaited_are_needed, ended_are_out, endings_stay, joins_are_live, opening_is_known,
    reached_is_known, signals_keep_their_widths, tasks_are_in_place, turns_are_live,
    waits_are_unmet,
};
