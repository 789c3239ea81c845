//! Tables of names, for texts that are gone through from the top.
//!
//! [`Names`] keeps of each name the place that was noted first. A look-up takes no scan.
#![tactic(auto)]

mod names;

pub use names::Names;
