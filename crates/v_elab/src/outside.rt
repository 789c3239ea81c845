//! What an instance is given from outside.

use crate::connect::Joints;
use v_header::parameter::Given;

/// What an instance is given from the scope around it (IEEE 1364-2005, clauses 12.2 and 12.3).
#[derive(Drop)]
pub struct Outside {
    /// The values of its parameters.
    pub given: Given,
    /// What its ports are joined to.
    pub joints: Joints,
}
