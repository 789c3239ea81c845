//! What queues hold in the runs of a tests file.
//!
//! Laws over the definitions of `rig_model::run`, and no code: the contract of each function here is a law. Begin with `specs/Items/Account.antt`.
mod laws;

pub use laws::{
    items_are_neither_lost_nor_doubled, other_steps_leave_items, put_items_are_stored,
    taken_items_are_given,
};
