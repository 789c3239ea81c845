//! The packing of the processes of a flat design.

mod acts;
mod backwards;
mod needs;
mod processes;
mod targets;
mod terms;
