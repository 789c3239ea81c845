//! The definition of a run of a tests file.
//!
//! Begin with `specs/Run.antt`: a run does one step after the other, up to a budget. A step is one of a task (`rig_model::task`), one event of the
//! simulator (`gpi`), or the begin or the end of a test. `Rig` says what a configuration holds, `Effect` what each thing does that a task wants,
//! `Serve` whom fired keys wake, `Verdict` what the report says of a test. [`Outcome`] is how a test ended, and [`Verdict`] what the report says of
//! it. The engine that keeps this definition is left to the crates above.
mod laws;
mod outcome;

pub use laws::{
    amid_delay, budgets, clock_cycles, deadlines, delayed_update, ended_is_empty, exact_budget,
    fired_is_served, gives_way, joined_faults, just_killed, kill_in_combine, kill_of_woken,
    killed_is_gone, largest_time, least_run, lines_are_a_front, locks, no_past_edge, no_test,
    options, phase_last, random_numbers, read_only_end, read_only_write, repeated_writes,
    rise_first, run_exists, run_is_one, run_is_within_budget, set_and_clear, stalled_test,
    step_costs_at_most_one, step_keeps_known, ties, update_of_ended_test, verdicts, with_timeout,
};
pub use outcome::{Outcome, Verdict};
