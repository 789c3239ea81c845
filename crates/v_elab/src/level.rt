//! Where an instance stands.

use v_flat::Timing;
use v_header::top::Modules;

/// Where an instance stands whose items are walked.
#[derive(Clone, Copy)]
pub struct Level<'a> {
    /// The modules of the text.
    pub modules: &'a Modules<'a>,
    /// The names of the modules from the top to this one.
    pub above: &'a [&'a [u8]],
    /// How many levels of instances may stand below.
    pub room: usize,
    /// The path of the instance, with dots.
    pub path: &'a [u8],
    /// What the delays of its module go by.
    pub timing: Timing,
}
