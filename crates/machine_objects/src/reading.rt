//! Fields of the objects of a heap, by the classes that declare them (JVMS 2.9.1).

ghost use Rattle.std.specs.Prelude.{◌≡◌, ◌<◌, true, length};
ghost use Rattle.machine_values.specs.Standing.{Settled};
ghost use Rattle.machine_values.specs.States.{is_known_object};
ghost use Rattle.machine_objects.specs.Fields.{HasPlace, LacksField, Reads, Writes, written_reply};

use crate::named::Declared;
use class_machine::kinds::Fault;
use class_world::World;
use machine_fields::{class_at, element_of, field_position, is_object_below};
use machine_requests::{Reply, get_field, put_field};
use machine_steps::class_name;
use machine_values::{Heap, Ref, Value};

// The place of the field among those of the object.
fn place_in(world: &World, heap: &Heap, at: Ref, found: Declared) -> Option<u32>
    requires known { at.0 < length heap.now.names }
    requires within { found.class.0 < length world.now.heads }
    ensures { HasPlace world.now heap.now at found.class.0 found.position result }
{
    match class_at(world, heap, at) {
        Some(class) => field_position(world, class, found.class, found.position),
        None => None,
    }
}

// The value of a field that the object's class lacks.
fn read_lacking(heap: &Heap, at: Ref, instance: bool) -> Reply
    requires { at.0 < length heap.now.names }
    ensures { LacksField heap.now at.0 instance result }
{
    let _fewer = heap.len(at);
    if instance {
        Reply::Gives(Value::Null)
    } else {
        Reply::Refuses
    }
}

/// The value of the field of the object, which may be null. A field that the object's class lacks reads
/// as null: an interface may declare one.
pub(crate) fn read(world: &World, heap: &Heap, found: Declared, object: Option<Ref>) -> Reply
    requires known { is_known_object (length heap.now.names) object ≡ true }
    requires within { found.class.0 < length world.now.heads }
    ensures { Reads world.now heap.now found.class.0 found.position object result }
{
    let Some(at) = object else {
        return Reply::Faults(Fault::NullPointer);
    };
    let instance = is_object_below(world, heap, at, class_name(world, found.class));
    match place_in(world, heap, at, found) {
        Some(index) => get_field(heap, object, instance, index),
        None => read_lacking(heap, at, instance),
    }
}

/// Gives the field of the object, which is of the descriptor, another value, and says whether the
/// object is one of the class that declares the field. Where the object's class lacks the field, as one
/// that an interface declares, nothing is done.
pub(crate) fn write(
    world: &World,
    heap: &mut Heap,
    found: Declared,
    descriptor: &[u8],
    at: Ref,
    value: Value,
) -> bool
    requires known { at.0 < length heap.old.names }
    requires settled { Settled (length heap.old.names) value }
    requires within { found.class.0 < length world.now.heads }
    ensures written { Writes world.now heap.old heap.new found.class.0 found.position descriptor.now at value (written_reply result) }
    ensures names { heap.new.names ≡ heap.old.names }
{
    if !is_object_below(world, heap, at, class_name(world, found.class)) {
        return false;
    }
    let Some(index) = place_in(world, heap, at, found) else {
        let _fewer = heap.len(at);
        return true;
    };
    let element = element_of(descriptor);
    matches!(
        put_field(heap, Some(at), true, index, element, value),
        Reply::Done
    )
}
