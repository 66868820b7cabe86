//! The messages of exceptions.

ghost use Rattle.std.specs.Prelude.{◌≡◌, ◌<◌, length, slice_get, IfOk};
ghost use Rattle.std.specs.Option.{option_copied};
ghost use Rattle.machine_requests.specs.Objects.{fields_at};
ghost use Rattle.machine_requests.specs.Texts.{text_seen};
ghost use Rattle.machine_steps.specs.Messages.{IsOf, HasMessage, text_in, field_value};

use aj_names::ClassId;
use class_world::World;
use machine_fields::message_position;
use machine_requests::{fields_read, texts_read};
use machine_values::{Content, Heap, MachineState, Maker, Name, Ref, Value};
use sqlite_items::Items;
use std::alloc::AllocError;

// The text of a String or a buffer.
fn text_seen(heap: &Heap, at: Ref) -> Option<&[u16]>
    requires { at.0 < length heap.now.names }
    ensures { option_copied result ≡ text_seen (slice_get heap.now.names at.0) (slice_get heap.now.contents at.0) }
{
    match (heap.name(at), heap.content(at)) {
        (Name::Literal(units), _) => Some(units.as_slice()),
        (Name::Made(_, _), Content::Text(units)) => Some(units.as_slice()),
        _ => None,
    }
}

// The text of a value.
fn text_in(heap: &Heap, value: Value) -> Option<&[u16]>
    ensures { option_copied result ≡ text_in heap.now value }
{
    let Value::Reference(at) = value else {
        return None;
    };
    if (at.0 as usize) < heap.count() {
        text_seen(heap, at)
    } else {
        None
    }
}

// The value of a field of an object, or null where the object has none of that number.
fn field_value(heap: &Heap, at: Ref, index: u32) -> Value
    requires { at.0 < length heap.now.names }
    ensures { result ≡ field_value heap.now at.0 index }
{
    match (heap.name(at), heap.content(at)) {
        (Name::Made(Maker::Class(_), _), Content::Values(fields)) => {
            match fields.as_slice().get(index as usize) {
                Some(value) => *value,
                None => Value::Null,
            }
        }
        _ => Value::Null,
    }
}

/// The message of the exception, in memory of its own; none where it is null.
pub fn message_of(
    state: &MachineState,
    world: &World,
    class: ClassId,
    x: Ref,
) -> Result<Option<Items<u16>>, AllocError>
    requires class { class.0 < length world.now.heads }
    requires known { x.0 < length state.now.heap.names }
    ensures { IfOk result (λ text. IsOf world.now state.now x class.0 → HasMessage world.now state.now x text) }
{
    fields_read();
    texts_read();
    let Some(index) = message_position(world, class) else {
        let _count = state.heap.len(x);
        return Ok(None);
    };
    match text_in(&state.heap, field_value(&state.heap, x, index)) {
        Some(units) => {
            let text = Items::from_slice(*state.frames.allocator(), units)?;
            Ok(Some(text))
        }
        None => Ok(None),
    }
}
