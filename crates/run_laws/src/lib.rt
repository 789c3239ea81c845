//! Laws of runs: what follows from the definition of a run for each test, each task and each awaited key.
//!
//! [`separate_tests`] says that a test knows nothing of those before it, [`remainder`] that what a task never comes to has no effect, and
//! [`places`] that each
//! started task stands in exactly one place and that the awaited keys are those that are needed, and [`items`] that queues neither lose an item nor
//! give one twice. [`waves`] says that what the lines of a run tell is in order of time, so that its VCD text can be read.
#![tactic(auto)]

pub mod items;
pub mod places;
pub mod remainder;
pub mod separate_tests;
pub mod waves;
