//! The definition of a task.
//!
//! Begin with `specs/Step.antt`: `next` is one step of a task, which has open calls (`Frame`) with names, statements and marks. `Poll` says what the
//! steps are up to the first that wants something of the runner. [`Turned`] is what a task wants, and [`Given`] what it is given. A [`Flow`] is a
//! task that keeps this definition, and a [`FlowMaker`] makes such tasks; how they do so is left to the crates above, and what the runner does with
//! what a task wants too.
mod flow;
mod laws;
mod task;

pub use flow::{Flow, FlowMaker};
pub use laws::{
    acts, bad_fails, calls_and_names, clock_starts, cost_at_most_one, deep_calls, far_numbers,
    few_frames, free_step_falls, free_wish_falls, handler_names, joined_and_killed, late_times,
    left_loops, locks_and_leaving, loops_and_handlers, names_stay, nested_handlers, never_spent,
    number_stays, one_cycle, poll_exists, poll_is_known, poll_is_one, poll_keeps_number,
    refused_release, results, spans, timeouts, which_faults, whole_numbers, writes,
};
pub use task::Turned;
