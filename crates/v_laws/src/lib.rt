//! Laws of the flattened design, over the definition of elaboration (`flat_design` of `v_flat`), for all texts.
//!
//! Each digit of a net has at most one driver ([`one_driver`], [`processes_keep_to_their_kind`], [`updates_are_recorded`]); the names of an instance
//! differ, and each stands for what has its path ([`names_differ`], [`names_have_their_paths`]); connected ports give the processes that are counted
//! for them ([`joints_are_counted`]); of several broken rules the first counts ([`first_faults_count`], [`first_faults_end_procedures`],
//! [`first_broken`]); what is read suffices for what is meant ([`expressions_read_enough`], [`targets_read_enough`], [`statements_read_enough`]),
//! and what a process waits for suffices for what it does ([`assignments_wait_for_enough`], [`procedures_wait_for_enough`],
//! [`implicit_controls_wait_for_enough`]); VCD texts can be written of designs ([`designs_are_traceable`]). Nothing stands on this crate.
#![tactic(auto)]

mod first;
mod laws;

pub use first::first_broken;
pub use laws::{
    assignments_wait_for_enough, designs_are_traceable, expressions_read_enough,
    first_faults_count, first_faults_end_procedures, implicit_controls_wait_for_enough,
    joints_are_counted, names_differ, names_have_their_paths, one_driver,
    procedures_wait_for_enough, processes_keep_to_their_kind, statements_read_enough,
    targets_read_enough, updates_are_recorded,
};
