//! The state of the class machine, but for the script.

use crate::frames::Frame;
use crate::heap::Heap;
use crate::observed::Ending;
use crate::values::Value;
use aj_names::{Items, MethodId};

/// What is still to come when no frame is left.
#[derive(Drop)]
pub enum Due {
    Nothing,
    /// The entry is a native method, which is still to be called with these arguments.
    NativeEntry(MethodId, Items<Value>),
    /// The run is over.
    Finally(Ending),
}

/// The state of a run (JVMS 3.5, 3.6).
#[derive(Drop)]
pub struct MachineState {
    /// The frames, the running one last.
    pub frames: Vec<Frame>,
    pub heap: Heap,
    /// By the number of a field, the value of the static field, if one was stored.
    pub statics: Items<Option<Value>>,
    /// By the number of a class, whether its initialisation has begun.
    pub begun: Items<bool>,
    /// By the place of an object, how often its monitor was entered and not left; 0 past the end.
    pub monitors: Items<u64>,
    pub due: Due,
}
