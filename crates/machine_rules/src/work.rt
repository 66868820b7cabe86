//! What comes of a library call.

use aj_names::{FieldType, MethodId};
use class_machine::kinds::Fault;
use machine_values::{Event, Ref, Value, Wait};

/// What comes of a call of a library method.
#[derive(Drop)]
pub enum Work {
    /// It is done, with an event and a result where there is one.
    Results(Option<Event>, Option<Value>),
    /// It throws an exception that it made.
    Throws(Ref),
    /// The machine makes an exception.
    Faults(Fault),
    /// It waits for the text of this method of the object.
    Calls {
        method: MethodId,
        object: Ref,
        wait: Wait,
    },
    /// It initialises the class and gives its class object.
    Loads(FieldType),
    Exits(i32),
    /// An argument is no instance of what the rule needs: the run is Broken.
    Misuses,
}
