//! What the running frame holds.

ghost use Rattle.std.specs.Prelude.{◌≡◌, length};
ghost use Rattle.machine_values.specs.Standing.{is_settled};
ghost use Rattle.machine_statics.specs.Tops.{TellsRoom, TellsPut};

use class_machine::kinds::Kind;
use machine_frames::{can_put_static, room_for};
use machine_values::{Heap, MachineState, Value};

/// Whether the running frame has room for a value of the kind.
pub(crate) fn has_room(state: &MachineState, kind: Kind) -> bool
    ensures { TellsRoom state.now kind result }
{
    match state.frames.last() {
        Some(frame) => room_for(frame, kind),
        None => false,
    }
}

/// Whether the running frame has a value of the kind on top.
pub(crate) fn has_value(state: &MachineState, kind: Kind) -> bool
    ensures { TellsPut state.now kind result }
{
    match state.frames.last() {
        Some(frame) => can_put_static(frame, kind),
        None => false,
    }
}

/// Whether it is a plain value, which refers to no object but one of the heap.
pub(crate) fn is_settled(heap: &Heap, value: Value) -> bool
    ensures { result ≡ is_settled (length heap.now.names) value }
{
    match value {
        Value::Reference(at) => (at.0 as usize) < heap.count(),
        Value::Token(_, _) | Value::ReturnAddress(_) => false,
        _ => true,
    }
}
