//! What is reported of a run.

use machine_values::{Ending, Event};

/// What was observed of a run within a number of steps.
#[derive(Drop)]
pub struct Report {
    /// What was said, the oldest first.
    pub events: Vec<Event>,
    /// How the run ended; `None` where its steps were spent before.
    pub ending: Option<Ending>,
    /// The steps that the run took to its ending; all that it was given where it has none.
    pub steps: u64,
}
