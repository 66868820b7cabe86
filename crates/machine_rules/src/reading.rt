//! Fields that the library keeps of its own in objects: the message of an exception, and what a box
//! holds.

ghost use Rattle.std.specs.Prelude.{◌≡◌, ◌<◌, ◌^◌, length, slice_get, IfSome};
ghost use Rattle.std.specs.Option.{option_map};
ghost use Rattle.class_machine.specs.World.{message_field, value_field};
ghost use Rattle.machine_values.specs.Standing.{Settled};
ghost use Rattle.machine_values.specs.Things.{values_at};
ghost use Rattle.machine_rules.specs.Reading.{class_made, value_read, Reads};

use aj_names::ClassId;
use boot_library::Primitive;
use class_world::World;
use machine_fields::{message_position, value_position};
use machine_values::{Heap, Maker, Name, Ref, Value};

// The class that the object was made of, where it is one of the world's.
fn class_made(heap: &Heap, world: &World, at: Ref) -> Option<ClassId>
    requires { at.0 < length heap.now.names }
    ensures class { option_map (λ class. class.0) result ≡ class_made (length world.now.heads) (slice_get heap.now.names at.0) }
    ensures within { IfSome result (λ class. class.0 < length world.now.heads) }
{
    match heap.name(at) {
        Name::Made(Maker::Class(class), _) => {
            if class.0 < world.classes() {
                Some(*class)
            } else {
                None
            }
        }
        _ => None,
    }
}

// The value at a place among those of the object; null, where there is none.
fn value_read(heap: &Heap, at: Ref, place: Option<u32>) -> Value
    requires { at.0 < length heap.now.names }
    ensures value { result ≡ value_read heap.now at.0 place }
    ensures few { length (values_at heap.now at.0) < 2 ^ 32 }
{
    let count = heap.len(at);
    match place {
        Some(index) => {
            if index < count {
                heap.load(at, index)
            } else {
                Value::Null
            }
        }
        None => Value::Null,
    }
}

// The value, as objects hold them: no token, and no place in code.
fn settled(heap: &Heap, value: Value) -> Value
    ensures settled { Settled (length heap.now.names) result }
    ensures same { Settled (length heap.now.names) value → result ≡ value }
{
    match value {
        Value::Reference(at) => {
            if (at.0 as usize) < heap.count() {
                value
            } else {
                Value::Null
            }
        }
        Value::Token(_, _) | Value::ReturnAddress(_) => Value::Null,
        _ => value,
    }
}

/// The message of an exception, a String or null.
pub(crate) fn message(heap: &Heap, world: &World, x: Ref) -> Value
    requires { x.0 < length heap.now.names }
    ensures settled { Settled (length heap.now.names) result }
    ensures reads { Reads world.now heap.now x message_field result }
{
    match class_made(heap, world, x) {
        Some(class) => settled(heap, value_read(heap, x, message_position(world, class))),
        None => Value::Null,
    }
}

/// What a box holds.
pub(crate) fn box_value(heap: &Heap, world: &World, at: Ref, boxed: Primitive) -> Value
    requires { at.0 < length heap.now.names }
    ensures settled { Settled (length heap.now.names) result }
    ensures reads { Reads world.now heap.now at (value_field boxed) result }
{
    match class_made(heap, world, at) {
        Some(class) => settled(
            heap,
            value_read(heap, at, value_position(world, class, boxed)),
        ),
        None => Value::Null,
    }
}
