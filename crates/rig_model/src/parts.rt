//! The parts of a test that runs, as the runner keeps them, and the configuration that they and a simulator stand for: definitions, which the crates
//! above share, and their laws: what a configuration is made of, when a simulator stands for it, where the tasks of a test stand, and that steps
//! which fit a fuel are steps of a run.
mod laws;

pub use laws::{
    begun_test_is_placed, effects_lead_on, fitting_simulator_stands, one_step_fits,
    placed_tasks_are_apart, queue_is_kept, short_steps_end_the_run, steps_follow_steps,
    steps_of_a_test_are_of_the_run, steps_of_a_wait_are_of_the_run, turn_steps_are_steps,
};
