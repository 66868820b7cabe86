//! Steps.

use machine_values::{Ending, Event};

/// What a step comes to.
#[derive(Drop)]
pub enum Step {
    /// The run goes on, and nothing was said.
    Went,
    /// The run goes on, after the event.
    Said(Event),
    /// The run is over.
    Ended(Ending),
    /// The instruction is for another part of the machine, and nothing was done.
    NotMine,
}
