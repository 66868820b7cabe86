//! Arrays.

ghost use Rattle.std.specs.Prelude.{◌≡◌, ◌<◌, true, length};
ghost use Rattle.machine_values.specs.Standing.{held, Settled};
ghost use Rattle.std.specs.Option.{option_copied};
ghost use Rattle.std.specs.Int.{w32, cast_signed};
ghost use Rattle.machine_values.specs.declared.values.Value.TheVariants.{Int};
ghost use Rattle.class_machine.specs.Effect.{ArrayLength, ArrayLoad, ArrayStore};
ghost use Rattle.machine_values.specs.States.{is_known_object};
ghost use Rattle.machine_requests.specs.Arrays.{array_type, index_in, Holds};
ghost use Rattle.machine_requests.specs.Objects.{AreFilled};
ghost use Rattle.machine_requests.specs.Shares.{Others, Setting};
ghost use Rattle.machine_requests.specs.Replies.{IsAnswer, IsAnswerWhere, object};

use crate::elements::{array_element, kept_value, serves};
use crate::reply::Reply;
use aj_names::FieldType;
use class_machine::kinds::{Element, Fault};
use machine_values::{Content, Heap, Maker, Name, Ref, Value};

// The type of the array, where there is an array.
fn array_type(heap: &Heap, at: Ref) -> Option<&FieldType>
    requires { at.0 < length heap.now.names }
    ensures { option_copied result ≡ array_type heap.now at.0 }
{
    match (heap.name(at), heap.content(at)) {
        (Name::Made(Maker::Array(class), _), Content::Values(_)) => Some(class),
        _ => None,
    }
}

// The low 32 bits of a number of elements, as an int.
fn count_value(count: u32) -> Value
    ensures { result ≡ Int (cast_signed w32 count) }
{
    Value::Int(count.cast_signed())
}

// The number of the element at the index, of so many elements.
fn index_in(index: i32, count: u32) -> Option<u32>
    ensures { result ≡ index_in index count }
{
    if index < 0 {
        return None;
    }
    let place = index as u32;
    if place < count { Some(place) } else { None }
}

/// The number of elements (JVMS 6, `arraylength`).
pub fn array_length(heap: &Heap, array: Option<Ref>) -> Reply
    requires { is_known_object (length heap.now.names) array ≡ true }
    ensures { (others : Others) → IsAnswer heap.now others (λ s names. ArrayLength (object s names array)) heap.now others result }
{
    let Some(at) = array else {
        return Reply::Faults(Fault::NullPointer);
    };
    match array_type(heap, at) {
        Some(_) => Reply::Gives(count_value(heap.len(at))),
        None => Reply::Refuses,
    }
}

/// The element at the index (JVMS 6, `iaload` and its kin).
pub fn array_load(heap: &Heap, element: Element, array: Option<Ref>, index: i32) -> Reply
    requires { is_known_object (length heap.now.names) array ≡ true }
    ensures { (others : Others) → IsAnswer heap.now others (λ s names. ArrayLoad element (object s names array) index) heap.now others result }
{
    let Some(at) = array else {
        return Reply::Faults(Fault::NullPointer);
    };
    let Some(class) = array_type(heap, at) else {
        return Reply::Refuses;
    };
    if !serves(element, array_element(class)) {
        return Reply::Refuses;
    }
    match index_in(index, heap.len(at)) {
        Some(place) => Reply::Gives(heap.load(at, place)),
        None => Reply::Faults(Fault::ArrayIndex),
    }
}

/// The value is to be the element at the index, where the array may hold it, as `fits` says (JVMS 6,
/// `iastore` and its kin).
pub fn array_store(
    heap: &mut Heap,
    element: Element,
    array: Option<Ref>,
    index: i32,
    value: Value,
    fits: bool,
) -> Reply
    requires known { is_known_object (length heap.old.names) array ≡ true }
    requires settled { Settled (length heap.old.names) value }
    ensures answer { (others : Others) → IsAnswerWhere (Holds heap.old array value fits) heap.old others (λ s names. ArrayStore element (object s names array) index (held s.heads names value)) heap.new others result }
    ensures names { heap.new.names ≡ heap.old.names }
    ensures filled { (s : Setting) → AreFilled heap.old s → AreFilled heap.new s }
{
    let Some(at) = array else {
        return Reply::Faults(Fault::NullPointer);
    };
    let Some(class) = array_type(heap, at) else {
        return Reply::Refuses;
    };
    let held = array_element(class);
    if !serves(element, held) {
        return Reply::Refuses;
    }
    let Some(place) = index_in(index, heap.len(at)) else {
        return Reply::Faults(Fault::ArrayIndex);
    };
    if !fits {
        return Reply::Faults(Fault::ArrayStore);
    }
    heap.store(at, place, kept_value(held, value));
    Reply::Done
}
