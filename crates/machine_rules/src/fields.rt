//! Fields of the library's objects that no code can name.

ghost use Rattle.std.specs.Prelude.{◌≡◌, ℕ, ◌<◌, ◌≤◌, take, length, slice_get, IfSome};
ghost use Rattle.std.specs.Option.{option_map};
ghost use Rattle.class_machine.specs.declared.kinds.Element.{Element};
ghost use Rattle.class_machine.specs.Descriptors.{element_of};
ghost use Rattle.class_machine.specs.LibraryCalls as calls;
ghost use Rattle.class_machine.specs.World as worlds;
ghost use Rattle.machine_values.specs.Standing.{name_of, Settled};
ghost use Rattle.machine_requests.specs.Objects.{AreFilled};
ghost use Rattle.machine_requests.specs.Shares.{Setting};
ghost use Rattle.machine_requests.specs.Telling.{AreDistinct};
ghost use Rattle.machine_fields.specs.Positions.{IsPlace, fields_of_class};
ghost use Rattle.machine_rules.specs.Fields.{field_named, made_class, AreWhole, IsAtPlace, Reads, Writes};
ghost use Rattle.machine_rules.specs.Works.{Does};

use crate::work::Work;
use aj_names::ClassId;
use boot_library::Primitive;
use class_machine::kinds::Element;
use class_world::World;
use machine_fields::{cause_position, message_position, value_position};
use machine_requests::{Reply, get_field, put_field};
use machine_values::{Heap, Maker, Name, Ref, Value};

/// A field that the library keeps of its own.
#[derive(Clone, Copy)]
pub(crate) enum HiddenField {
    /// The message of a Throwable.
    Message,
    /// The cause of a Throwable.
    Cause,
    /// What a box holds.
    Boxed(Primitive),
}

// The place of the field among those of an object of the class.
fn position_of(world: &World, class: ClassId, field: HiddenField) -> Option<u32>
    requires { class.0 < length world.now.heads }
    ensures { AreDistinct world.now.heads → IsPlace (fields_of_class world.now class.0) (field_named field) result }
{
    match field {
        HiddenField::Message => message_position(world, class),
        HiddenField::Cause => cause_position(world, class),
        HiddenField::Boxed(boxed) => value_position(world, class, boxed),
    }
}

// What the field holds.
fn element_of(field: HiddenField) -> Element
    ensures { result ≡ element_of (field_named field).member.descriptor }
{
    match field {
        HiddenField::Message | HiddenField::Cause => Element::Reference,
        HiddenField::Boxed(boxed) => match boxed {
            Primitive::Boolean => Element::Boolean,
            Primitive::Byte => Element::Byte,
            Primitive::Char => Element::Char,
            Primitive::Short => Element::Short,
            Primitive::Int => Element::Int,
            Primitive::Long => Element::Long,
            Primitive::Float => Element::Float,
            Primitive::Double => Element::Double,
        },
    }
}

// The class that the object was made of, where it is one of the world's.
fn made_class(heap: &Heap, world: &World, at: Ref) -> Option<ClassId>
    requires { at.0 < length heap.now.names }
    ensures class { option_map (λ class. class.0) result ≡ made_class (length world.now.heads) (slice_get heap.now.names at.0) }
    ensures within { IfSome result (λ class. class.0 < length world.now.heads) }
{
    match heap.name(at) {
        Name::Made(Maker::Class(class), _) => {
            if class.0 < world.classes() {
                Some(*class)
            } else {
                None
            }
        }
        _ => None,
    }
}

// The value at a place among the fields of the object; null, where there is none.
fn value_at(heap: &Heap, at: Ref, index: u32) -> Value
    requires { at.0 < length heap.now.names }
    ensures { IsAtPlace heap.now at index result }
{
    match get_field(heap, Some(at), true, index) {
        Reply::Gives(value) => value,
        _ => Value::Null,
    }
}

/// What the field of the object holds; null of an object that has no such field.
pub(crate) fn read_hidden(heap: &Heap, world: &World, at: Ref, field: HiddenField) -> Value
    requires { at.0 < length heap.now.names }
    ensures { Reads world.now heap.now at (field_named field) result }
{
    let _count = heap.len(at);
    let Some(class) = made_class(heap, world, at) else {
        return Value::Null;
    };
    match position_of(world, class, field) {
        Some(index) => value_at(heap, at, index),
        None => Value::Null,
    }
}

/// Gives what the field of the object holds.
pub(crate) fn give_hidden(heap: &Heap, world: &World, at: Ref, field: HiddenField) -> Work
    requires { at.0 < length heap.now.names }
    ensures { Does world.now heap.now (λ s names w. calls.gives (worlds.read_field w (name_of s.heads names at) (field_named field)) w) heap.now result }
{
    Work::Results(None, Some(read_hidden(heap, world, at, field)))
}

/// Gives the field of the object another value; of an object that has no such field nothing changes.
pub(crate) fn write_hidden(
    heap: &mut Heap,
    world: &World,
    at: Ref,
    field: HiddenField,
    value: Value,
)
    requires known { at.0 < length heap.old.names }
    requires settled { Settled (length heap.old.names) value }
    ensures written { AreWhole world.now heap.old → Writes world.now heap.old at (field_named field) value heap.new }
    ensures names { heap.new.names ≡ heap.old.names }
    ensures filled { (s : Setting) → AreFilled heap.old s → AreFilled heap.new s }
{
    let _count = heap.len(at);
    let Some(class) = made_class(heap, world, at) else {
        return;
    };
    if let Some(index) = position_of(world, class, field) {
        let _reply = put_field(heap, Some(at), true, index, element_of(field), value);
    }
}

/// The same, of a field of references. The objects that were made before this one stay as they are.
pub(crate) fn write_reference(
    heap: &mut Heap,
    world: &World,
    at: Ref,
    field: HiddenField,
    value: Value,
)
    requires known { at.0 < length heap.old.names }
    requires field { element_of (field_named field).member.descriptor ≡ Element.Reference }
    requires settled { Settled (length heap.old.names) value }
    ensures written { Writes world.now heap.old at (field_named field) value heap.new }
    ensures names { heap.new.names ≡ heap.old.names }
    ensures before { (count : ℕ) → count ≤ at.0 → take count heap.new.contents ≡ take count heap.old.contents }
    ensures filled { (s : Setting) → AreFilled heap.old s → AreFilled heap.new s }
{
    let count = heap.len(at);
    let Some(class) = made_class(heap, world, at) else {
        return;
    };
    let Some(index) = position_of(world, class, field) else {
        return;
    };
    if index < count {
        heap.store(at, index, value);
    }
}
