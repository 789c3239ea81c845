//! Laws of the shape of a design.
//!
//! Whatever text it stands for, a design's instances form one tree ([`instances_form_a_tree`]), no list of it is too long
//! ([`lists_are_short`], [`signals_fit`]), its numbers lie in their lists, and no two of its signals have one path ([`paths_differ`]).
mod laws;

pub use laws::{instances_form_a_tree, lists_are_short, paths_differ, signals_fit};
