//! The `toString` and `getMessage` of objects within a library call.

ghost use Rattle.std.specs.Prelude.{◌≡◌, ◌<◌, ◌++◌, true, length, List, Some, IfOk, OnErr, OnOk};
ghost use Rattle.std.specs.Option.{option_map};
ghost use Rattle.class_heads.specs.declared.types.ClassHead.{ClassHead};
ghost use Rattle.class_machine.specs.Classes.{Method};
ghost use Rattle.class_machine.specs.LibraryCalls as calls;
ghost use Rattle.class_machine.specs.Values.{Int};
ghost use Rattle.class_machine.specs.World.{read_field, value_field};
ghost use Rattle.machine_values.specs.declared.names.Name.{Name};
ghost use Rattle.machine_values.specs.Standing.{name_of, held};
ghost use Rattle.machine_values.specs.States.{is_known_destination};
ghost use Rattle.machine_requests.specs.Replies.{IsLonger};
ghost use Rattle.machine_rules.specs.Asking.{MakesText};
ghost use Rattle.machine_rules.specs.Filling.{FillsStill};
ghost use Rattle.machine_rules.specs.Finishing.{destination_of};
ghost use Rattle.machine_rules.specs.Library.{HasLibrary};
ghost use Rattle.machine_rules.specs.Texts.{text_at};
ghost use Rattle.machine_rules.specs.Works.{Does, ChangesBy};

use crate::classes::class_of;
use crate::finishing::{finish_made, finish_text};
use crate::identity::description;
use crate::numbers::{boolean_text, low_unit, put_bytes, put_decimal};
use crate::objects::text_at;
use crate::reading::{box_value, message};
use crate::resuming::resume;
use crate::selecting::{Selected, selected_message, selected_text};
use crate::work::Work;
use boot_library::{LibraryRule, Primitive};
use class_world::World;
use machine_values::{Destination, Heap, Ref, Value, Wait};
use std::alloc::{AllocError, Global};

// What is done with the description of an exception, where a method of the library gives its message.
fn message_ruled(
    alloc: Global,
    heap: &mut Heap,
    world: &World,
    rule: LibraryRule,
    x: Ref,
    to: Destination,
) -> Result<Work, AllocError>
    requires library { HasLibrary world.now }
    requires x { x.0 < length heap.old.names }
    requires to { is_known_destination (length heap.old.names) to ≡ true }
    ensures work { IfOk result (λ work. (m : Method) → Does world.now heap.old (λ s names w. calls.message_by w (name_of s.heads names x) (destination_of s names to) (Some rule) m) heap.new work) }
    ensures names { IsLonger heap.old heap.new }
    ensures filled { IfOk result (λ work. FillsStill world.now heap.old heap.new) }
    ensures changes { IfOk result (λ work. ChangesBy heap.old heap.new work) }
    ensures err { OnErr result (heap.new ≡ heap.old) }
{
    match rule {
        LibraryRule::Message => {
            let wait = Wait {
                describes: Some(x),
                destination: to,
            };
            let value = message(heap, world, x);
            resume(alloc, heap, world, &wait, value)
        }
        _ => Ok(Work::Misuses),
    }
}

/// What is done with the description of an exception, by what its `getMessage` gives.
pub(crate) fn ask_message(
    alloc: Global,
    heap: &mut Heap,
    world: &World,
    x: Ref,
    to: Destination,
) -> Result<Work, AllocError>
    requires library { HasLibrary world.now }
    requires x { x.0 < length heap.old.names }
    requires to { is_known_destination (length heap.old.names) to ≡ true }
    ensures work { IfOk result (λ work. Does world.now heap.old (λ s names w. calls.ask_message s.classes w (name_of s.heads names x) (destination_of s names to)) heap.new work) }
    ensures names { IsLonger heap.old heap.new }
    ensures filled { IfOk result (λ work. FillsStill world.now heap.old heap.new) }
    ensures changes { IfOk result (λ work. ChangesBy heap.old heap.new work) }
    ensures err { OnErr result (heap.new ≡ heap.old) }
{
    let class = class_of(alloc, heap, world, x)?;
    match selected_message(world, class.as_slice()) {
        Some(Selected::Ruled(rule)) => message_ruled(alloc, heap, world, rule, x, to),
        Some(Selected::Bare(method)) => Ok(Work::Calls {
            method,
            object: x,
            wait: Wait {
                describes: Some(x),
                destination: to,
            },
        }),
        None => Ok(Work::Misuses),
    }
}

// The text of an int that a box holds.
fn put_int(out: &mut Vec<u16>, boxed: Primitive, n: i32) -> Result<(), AllocError>
    ensures { OnOk result (out.new.items ≡ out.old.items ++ calls.box_text boxed (Int n)) }
{
    match boxed {
        Primitive::Char => {
            out.push(low_unit(n))?;
            Ok(())
        }
        Primitive::Boolean => put_bytes(out, boolean_text(n)),
        _ => put_decimal(out, i64::from(n)),
    }
}

// The text of what a box holds.
fn put_box(out: &mut Vec<u16>, boxed: Primitive, value: Value) -> Result<(), AllocError>
    ensures { (heads : List ClassHead) (names : List Name) → OnOk result (out.new.items ≡ out.old.items ++ calls.box_text boxed (held heads names value)) }
{
    match value {
        Value::Int(n) => put_int(out, boxed, n),
        Value::Long(n) => put_decimal(out, n),
        _ => Ok(()),
    }
}

// The text of a box.
fn box_text(
    alloc: Global,
    heap: &Heap,
    world: &World,
    at: Ref,
    boxed: Primitive,
) -> Result<Vec<u16>, AllocError>
    requires { at.0 < length heap.now.names }
    ensures { IfOk result (λ units. MakesText world.now heap.now (λ s names w. Some (calls.box_text boxed (read_field w (name_of s.heads names at) (value_field boxed)))) (Some units.items)) }
{
    let mut units = Vec::new(alloc);
    put_box(&mut units, boxed, box_value(heap, world, at, boxed))?;
    Ok(units)
}

// The units of an object, in memory of their own.
fn copied(alloc: Global, heap: &Heap, at: Ref) -> Result<Option<Vec<u16>>, AllocError>
    requires { at.0 < length heap.now.names }
    ensures { IfOk result (λ text. option_map (λ units. units.items) text ≡ text_at heap.now at.0) }
{
    match text_at(heap, at) {
        Some(units) => {
            let copy = Vec::from_slice(alloc, units)?;
            Ok(Some(copy))
        }
        None => Ok(None),
    }
}

// The text that a `toString` of the library makes of an object.
fn made_text(
    alloc: Global,
    heap: &Heap,
    world: &World,
    rule: LibraryRule,
    at: Ref,
) -> Result<Option<Vec<u16>>, AllocError>
    requires { at.0 < length heap.now.names }
    ensures { IfOk result (λ text. MakesText world.now heap.now (λ s names w. calls.made_text w rule (name_of s.heads names at)) (option_map (λ units. units.items) text)) }
{
    match rule {
        LibraryRule::Describe => {
            let units = description(alloc, heap, world, at)?;
            Ok(Some(units))
        }
        LibraryRule::Copy => copied(alloc, heap, at),
        LibraryRule::DescribeBox(boxed) => {
            let units = box_text(alloc, heap, world, at, boxed)?;
            Ok(Some(units))
        }
        _ => Ok(None),
    }
}

/// What is done with the text that a `toString` of the library makes of an object.
pub(crate) fn finish_ruled(
    alloc: Global,
    heap: &mut Heap,
    world: &World,
    rule: LibraryRule,
    at: Ref,
    to: Destination,
) -> Result<Work, AllocError>
    requires library { HasLibrary world.now }
    requires at { at.0 < length heap.old.names }
    requires to { is_known_destination (length heap.old.names) to ≡ true }
    ensures work { IfOk result (λ work. Does world.now heap.old (λ s names w. calls.finish_made (destination_of s names to) w (calls.made_text w rule (name_of s.heads names at))) heap.new work) }
    ensures names { IsLonger heap.old heap.new }
    ensures filled { IfOk result (λ work. FillsStill world.now heap.old heap.new) }
    ensures changes { IfOk result (λ work. ChangesBy heap.old heap.new work) }
    ensures err { OnErr result (heap.new ≡ heap.old) }
{
    match made_text(alloc, heap, world, rule, at)? {
        Some(units) => finish_made(alloc, heap, world, to, units.as_slice()),
        None => Ok(Work::Misuses),
    }
}

// What is done with an object's text, where a method of the library gives it.
fn text_ruled(
    alloc: Global,
    heap: &mut Heap,
    world: &World,
    rule: LibraryRule,
    at: Ref,
    to: Destination,
) -> Result<Work, AllocError>
    requires library { HasLibrary world.now }
    requires at { at.0 < length heap.old.names }
    requires to { is_known_destination (length heap.old.names) to ≡ true }
    ensures work { IfOk result (λ work. (m : Method) → Does world.now heap.old (λ s names w. calls.text_by s.classes w (name_of s.heads names at) (destination_of s names to) (Some rule) m) heap.new work) }
    ensures names { IsLonger heap.old heap.new }
    ensures filled { IfOk result (λ work. FillsStill world.now heap.old heap.new) }
    ensures changes { IfOk result (λ work. ChangesBy heap.old heap.new work) }
    ensures err { OnErr result (heap.new ≡ heap.old) }
{
    match rule {
        LibraryRule::Itself => finish_text(alloc, heap, world, to, Some(at)),
        LibraryRule::DescribeThrowable => ask_message(alloc, heap, world, at, to),
        _ => finish_ruled(alloc, heap, world, rule, at, to),
    }
}

/// What is done with what `toString` of an object gives.
pub(crate) fn ask_text(
    alloc: Global,
    heap: &mut Heap,
    world: &World,
    at: Ref,
    to: Destination,
) -> Result<Work, AllocError>
    requires library { HasLibrary world.now }
    requires at { at.0 < length heap.old.names }
    requires to { is_known_destination (length heap.old.names) to ≡ true }
    ensures work { IfOk result (λ work. Does world.now heap.old (λ s names w. calls.ask_text s.classes w (name_of s.heads names at) (destination_of s names to)) heap.new work) }
    ensures names { IsLonger heap.old heap.new }
    ensures filled { IfOk result (λ work. FillsStill world.now heap.old heap.new) }
    ensures changes { IfOk result (λ work. ChangesBy heap.old heap.new work) }
    ensures err { OnErr result (heap.new ≡ heap.old) }
{
    let class = class_of(alloc, heap, world, at)?;
    match selected_text(world, class.as_slice()) {
        Some(Selected::Ruled(rule)) => text_ruled(alloc, heap, world, rule, at, to),
        Some(Selected::Bare(method)) => Ok(Work::Calls {
            method,
            object: at,
            wait: Wait {
                describes: None,
                destination: to,
            },
        }),
        None => Ok(Work::Misuses),
    }
}
