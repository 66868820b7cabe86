//! What running a method comes to.

use machine_steps::Step;
use machine_values::Event;

/// What running a method comes to.
#[derive(Drop)]
pub(crate) enum Ran {
    /// The step is done.
    Done(Step),
    /// Initialisers come first: their frames stand on top, and the instruction is to be executed again.
    Begins,
    /// The script has no answer to the native call of this event that fits; nothing was changed.
    Lacks(Event),
}
