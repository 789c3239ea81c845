//! Laws of the effects of a test: where its tasks stand.
//!
//! That each task that has its turn, is ready or waits is live, and stands in one place alone, is kept by each effect of a task, by each event, by a
//! start and by each begin of a turn.
mod laws;

pub use laws::{effect_keeps_places, event_keeps_places, first_keeps_places, rest_keeps_places};
