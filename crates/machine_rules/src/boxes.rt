//! What boxes of primitive values do.

ghost use Rattle.std.specs.Prelude.{◌≡◌, ◌<◌, length, slice_get, IfOk, OnErr};
ghost use Rattle.boot_library.specs.declared.rule.LibraryRule.TheVariants as rule;
ghost use Rattle.class_machine.specs.LibraryCalls as calls;
ghost use Rattle.class_machine.specs.World.{box_class, make};
ghost use Rattle.machine_values.specs.Standing.{name_of, held, Settled};
ghost use Rattle.machine_requests.specs.Objects.{AreFilled};
ghost use Rattle.machine_requests.specs.Replies.{IsLonger};
ghost use Rattle.machine_requests.specs.Shares.{Setting};
ghost use Rattle.machine_rules.specs.Boxes.{is_box_name, int_hash, hash_value, same_values, TellsSameBox};
ghost use Rattle.machine_rules.specs.Fields.{AreWhole, StaysWhole};
ghost use Rattle.machine_rules.specs.Library.{HasLibrary};
ghost use Rattle.machine_rules.specs.Works.{Does, ChangesBy};

use crate::classes::{class_name, class_there};
use crate::fields::{HiddenField, give_hidden, read_hidden, write_hidden};
use crate::numbers::{long_hash, truth_hash};
use crate::strings::truth;
use crate::work::Work;
use boot_library::Primitive;
use class_world::World;
use machine_fields::make_object;
use machine_values::{Heap, Maker, Name, Ref, Value};
use std::alloc::{AllocError, Global};

// The name of the class of the type's boxes.
fn box_class(boxed: Primitive) -> &'static [u8]
    ensures { result.now ≡ box_class boxed }
{
    match boxed {
        Primitive::Boolean => b"java/lang/Boolean",
        Primitive::Byte => b"java/lang/Byte",
        Primitive::Char => b"java/lang/Character",
        Primitive::Short => b"java/lang/Short",
        Primitive::Int => b"java/lang/Integer",
        Primitive::Long => b"java/lang/Long",
        Primitive::Float => b"java/lang/Float",
        Primitive::Double => b"java/lang/Double",
    }
}

// Whether the object is a box of the type.
fn is_box(heap: &Heap, world: &World, at: Ref, boxed: Primitive) -> bool
    requires { at.0 < length heap.now.names }
    ensures { result ≡ is_box_name world.now.heads boxed (slice_get heap.now.names at.0) }
{
    match heap.name(at) {
        Name::Made(Maker::Class(class), _) => class_name(world, *class) == box_class(boxed),
        _ => false,
    }
}

// The hash of a box that holds an int.
fn int_hash(boxed: Primitive, n: i32) -> i32
    ensures { result ≡ int_hash boxed n }
{
    match boxed {
        Primitive::Boolean => truth_hash(n),
        _ => n,
    }
}

// The hash of a box that holds the value.
fn hash_value(boxed: Primitive, value: Value) -> Value
    ensures { result ≡ hash_value boxed value }
{
    match value {
        Value::Int(n) => Value::Int(int_hash(boxed, n)),
        Value::Long(n) => Value::Int(long_hash(n.cast_unsigned())),
        _ => value,
    }
}

// Whether both are the same number, or have the same bits.
fn same_values(value: Value, other: Value) -> bool
    ensures { result ≡ same_values value other }
{
    match (value, other) {
        (Value::Int(n), Value::Int(m)) => n == m,
        (Value::Long(n), Value::Long(m)) => n == m,
        (Value::Float(n), Value::Float(m)) => n == m,
        (Value::Double(n), Value::Double(m)) => n == m,
        _ => false,
    }
}

/// What the box holds.
pub(crate) fn unbox(heap: &Heap, world: &World, at: Ref, boxed: Primitive) -> Work
    requires { at.0 < length heap.now.names }
    ensures { Does world.now heap.now (λ s names w. calls.on_object s.classes w (rule.Unbox boxed) (name_of s.heads names at)) heap.now result }
{
    give_hidden(heap, world, at, HiddenField::Boxed(boxed))
}

/// The hash of the box.
pub(crate) fn box_hash(heap: &Heap, world: &World, at: Ref, boxed: Primitive) -> Work
    requires { at.0 < length heap.now.names }
    ensures { Does world.now heap.now (λ s names w. calls.on_object s.classes w (rule.BoxHash boxed) (name_of s.heads names at)) heap.now result }
{
    let value = read_hidden(heap, world, at, HiddenField::Boxed(boxed));
    Work::Results(None, Some(hash_value(boxed, value)))
}

// Whether the value is a box of the type that holds the same.
fn holds_same(heap: &Heap, world: &World, boxed: Primitive, at: Ref, other: Value) -> bool
    requires at { at.0 < length heap.now.names }
    requires other { Settled (length heap.now.names) other }
    ensures { TellsSameBox world.now heap.now boxed at other result }
{
    let Value::Reference(box_of_other) = other else {
        return false;
    };
    let field = HiddenField::Boxed(boxed);
    is_box(heap, world, box_of_other, boxed)
        && same_values(
            read_hidden(heap, world, at, field),
            read_hidden(heap, world, box_of_other, field),
        )
}

/// Whether the value is a box of the same class that holds the same.
pub(crate) fn same_box(heap: &Heap, world: &World, boxed: Primitive, at: Ref, other: Value) -> Work
    requires at { at.0 < length heap.now.names }
    requires other { Settled (length heap.now.names) other }
    ensures { Does world.now heap.now (λ s names w. calls.with_argument s.classes w (rule.SameBox boxed) (name_of s.heads names at) (held s.heads names other)) heap.now result }
{
    Work::Results(None, Some(truth(holds_same(heap, world, boxed, at, other))))
}

/// The box holds another value.
pub(crate) fn set_box(
    heap: &mut Heap,
    world: &World,
    boxed: Primitive,
    at: Ref,
    value: Value,
) -> Work
    requires at { at.0 < length heap.old.names }
    requires value { Settled (length heap.old.names) value }
    ensures work { AreWhole world.now heap.old → Does world.now heap.old (λ s names w. calls.with_argument s.classes w (rule.SetBox boxed) (name_of s.heads names at) (held s.heads names value)) heap.new result }
    ensures names { heap.new.names ≡ heap.old.names }
    ensures filled { (s : Setting) → AreFilled heap.old s → AreFilled heap.new s }
    ensures changes { ChangesBy heap.old heap.new result }
{
    write_hidden(heap, world, at, HiddenField::Boxed(boxed), value);
    Work::Results(None, None)
}

/// A new box that holds the value. A call that fails leaves the heap as it was.
pub(crate) fn box_of(
    alloc: Global,
    heap: &mut Heap,
    world: &World,
    boxed: Primitive,
    value: Value,
) -> Result<Work, AllocError>
    requires library { HasLibrary world.now }
    requires value { Settled (length heap.old.names) value }
    ensures work { IfOk result (λ work. AreWhole world.now heap.old → Does world.now heap.old (λ s names w. calls.box_of w boxed (held s.heads names value) (make s.classes w (box_class boxed))) heap.new work) }
    ensures names { IsLonger heap.old heap.new }
    ensures filled { IfOk result (λ work. StaysWhole world.now heap.old heap.new) }
    ensures changes { IfOk result (λ work. ChangesBy heap.old heap.new work) }
    ensures err { OnErr result (heap.new ≡ heap.old) }
{
    let class = class_there(world, box_class(boxed));
    let at = make_object(alloc, heap, world, class)?;
    write_hidden(heap, world, at, HiddenField::Boxed(boxed), value);
    Ok(Work::Results(None, Some(Value::Reference(at))))
}
