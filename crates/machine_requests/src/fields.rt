//! Fields of objects.

ghost use Rattle.std.specs.Prelude.{◌≡◌, ◌<◌, true, length, slice_get, is_some};
ghost use Rattle.class_file.specs.Pool.{Reference};
ghost use Rattle.class_machine.specs.Effect.{GetField, PutField};
ghost use Rattle.machine_values.specs.Standing.{held, Settled};
ghost use Rattle.machine_values.specs.States.{is_known_object};
ghost use Rattle.machine_values.specs.Things.{values_at};
ghost use Rattle.machine_requests.specs.Shares.{Others, Setting};
ghost use Rattle.machine_requests.specs.Replies.{IsAnswerWhere, object as named};
ghost use Rattle.machine_requests.specs.Objects.{fields_at, get_reply, HasField, HoldsSuch, AreFilled};

use crate::elements::kept_value;
use crate::reply::Reply;
use class_machine::kinds::{Element, Fault};
use machine_values::{Content, Heap, Maker, Name, Ref, Value};

// The value of a field, where the object has so many.
fn field_at(heap: &Heap, at: Ref, index: u32) -> Option<Value>
    requires { at.0 < length heap.now.names }
    ensures { result ≡ slice_get (fields_at heap.now at.0) index }
{
    match (heap.name(at), heap.content(at)) {
        (Name::Made(Maker::Class(_), _), Content::Values(fields)) => {
            fields.as_slice().get(index as usize).copied()
        }
        _ => None,
    }
}

// The value of a field; null, where there is no such field.
fn read(field: Option<Value>) -> Reply
    ensures { result ≡ get_reply field }
{
    match field {
        Some(value) => Reply::Gives(value),
        None => Reply::Gives(Value::Null),
    }
}

/// The value of the object's field of that number, where the object is one of the class that declares
/// the field, as `instance` says (JVMS 6, `getfield`).
pub fn get_field(heap: &Heap, object: Option<Ref>, instance: bool, index: u32) -> Reply
    requires { is_known_object (length heap.now.names) object ≡ true }
    ensures { (others : Others) (r : Reference) → IsAnswerWhere (HasField heap.now object r instance index) heap.now others (λ s names. GetField r (named s names object)) heap.now others result }
{
    let Some(at) = object else {
        return Reply::Faults(Fault::NullPointer);
    };
    if !instance {
        return Reply::Refuses;
    }
    read(field_at(heap, at, index))
}

// Whether the object has so many fields.
fn has_field(heap: &Heap, at: Ref, index: u32) -> bool
    requires { at.0 < length heap.now.names }
    ensures there { result ≡ is_some (slice_get (fields_at heap.now at.0) index) }
    ensures within { result ≡ true → index < length (values_at heap.now at.0) }
{
    match heap.name(at) {
        Name::Made(Maker::Class(_), _) => index < heap.len(at),
        _ => false,
    }
}

/// Gives the object's field of that number, which holds such values, another value, where the object is
/// one of the class that declares the field, as `instance` says (JVMS 6, `putfield`).
pub fn put_field(
    heap: &mut Heap,
    object: Option<Ref>,
    instance: bool,
    index: u32,
    element: Element,
    value: Value,
) -> Reply
    requires known { is_known_object (length heap.old.names) object ≡ true }
    requires settled { Settled (length heap.old.names) value }
    ensures answer { (others : Others) (r : Reference) → IsAnswerWhere (λ s. HasField heap.old object r instance index s × HoldsSuch r element s × AreFilled heap.old s) heap.old others (λ s names. PutField r (named s names object) (held s.heads names value)) heap.new others result }
    ensures names { heap.new.names ≡ heap.old.names }
    ensures filled { (s : Setting) → AreFilled heap.old s → AreFilled heap.new s }
{
    let Some(at) = object else {
        return Reply::Faults(Fault::NullPointer);
    };
    if !instance {
        return Reply::Refuses;
    }
    if !has_field(heap, at, index) {
        return Reply::Refuses;
    }
    heap.store(at, index, kept_value(element, value));
    Reply::Done
}
