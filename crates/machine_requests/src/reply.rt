//! Replies.

use class_machine::kinds::Fault;
use machine_values::Value;

/// What the heap, the static fields or the monitors answer.
#[derive(Clone, Copy)]
pub enum Reply {
    /// A value for the operands.
    Gives(Value),
    Done,
    /// The machine makes an exception.
    Faults(Fault),
    /// The code did what no verified code does.
    Refuses,
}
