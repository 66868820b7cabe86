//! What a search comes to, and on an object a selection (JVMS 5.4.3.3, 5.4.3.4, 6, the instructions
//! `invokeinterface` to `invokevirtual`).

ghost use Rattle.std.specs.Prelude.{◌≡◌, IfSome};
ghost use Rattle.class_file.specs.Lookup.{reference_seen};
ghost use Rattle.class_machine.specs.Classes.{Method};
ghost use Rattle.class_machine.specs.Turn as turns;
ghost use Rattle.machine_steps.specs.Programs.{IsRunnable};
ghost use Rattle.machine_steps.specs.Runs.{IsMethod};
ghost use Rattle.machine_invocations.specs.Methods.{Sees};
ghost use Rattle.machine_invokes.specs.Choosing.{HasRoom, LacksRoom, HasLocals, IsCalled, RunsMethod, ChoosesStatic, FindsInstance, ChoosesNull, ChoosesFrom, ChoosesOn};

use crate::selecting::{is_known, selected, serves_as};
use aj_names::MethodId;
use class_file::Reference;
use class_world::World;
use machine_code::{kind_in, result_type};
use machine_frames::room_for;
use machine_invocations::{declared, find_method, fits, is_native, is_static, rule_of};
use machine_steps::code_of_method;
use machine_values::{Frame, Heap, Ref, Value};

/// What a search comes to, and what may follow it.
#[derive(Clone, Copy)]
pub enum Choice {
    /// The member that the instruction names isn't there.
    Missing,
    /// The run is Broken.
    Breaks,
    /// The method is to run.
    Runs(MethodId),
}

// A native method, or one of the library.
fn is_frameless(world: &World, method: MethodId) -> bool
    requires { IsMethod world.now method.0 }
    ensures { (m : Method) → Sees world.now method.0 m → result ≡ turns.is_frameless m }
{
    if is_native(world, method) {
        return true;
    }
    match rule_of(world, method) {
        Some(_rule) => true,
        None => false,
    }
}

// Whether the frame has room for the method's result.
fn has_result_room(frame: &Frame, world: &World, method: MethodId) -> bool
    requires { IsMethod world.now method.0 }
    ensures { HasRoom world.now frame.now method.0 result }
{
    let place = declared(world, method);
    match result_type(place.method.name.descriptor.as_slice()) {
        None => true,
        Some(descriptor) => room_for(frame, kind_in(descriptor)),
    }
}

/// Whether it is a method without a frame, for whose result the frame has no room.
pub fn lacks_room(frame: &Frame, world: &World, method: MethodId) -> bool
    requires { IsMethod world.now method.0 }
    ensures { LacksRoom world.now frame.now method.0 result }
{
    if is_frameless(world, method) {
        return !has_result_room(frame, world, method);
    }
    false
}

// Whether the code of the method has locals for the arguments; none where it has no code.
fn has_locals(world: &World, method: MethodId, given: &[Value]) -> Option<bool>
    requires runnable { IsRunnable world.now }
    requires method { IsMethod world.now method.0 }
    ensures { HasLocals world.now method.0 given.now result }
{
    match code_of_method(world, method) {
        None => None,
        Some(code) => Some(fits(given, code.entry().locals)),
    }
}

// A static method that is called with these arguments.
fn choose_called(frame: &Frame, world: &World, given: &[Value], method: MethodId) -> Choice
    requires runnable { IsRunnable world.now }
    requires method { IsMethod world.now method.0 }
    ensures { IsCalled world.now frame.now given.now method.0 result }
{
    if is_frameless(world, method) {
        if has_result_room(frame, world, method) {
            return Choice::Runs(method);
        }
        return Choice::Breaks;
    }
    let Some(fit) = has_locals(world, method, given) else {
        return Choice::Missing;
    };
    if fit {
        return Choice::Runs(method);
    }
    Choice::Breaks
}

/// What the search for a static method comes to, where these arguments were taken from the frame (JVMS
/// 6, `invokestatic`).
pub fn choose_static(frame: &Frame, world: &World, named: Reference<'_>, given: &[Value]) -> Choice
    requires { IsRunnable world.now }
    ensures chosen { ChoosesStatic world.now frame.now (reference_seen named.entry) given.now result }
    ensures method { RunsMethod world.now result }
{
    let Some(method) = find_method(world, named) else {
        return Choice::Missing;
    };
    if !is_static(world, method) {
        return Choice::Missing;
    }
    choose_called(frame, world, given, method)
}

/// The method of objects that the search finds.
pub fn find_instance(world: &World, named: Reference<'_>) -> Option<MethodId>
    ensures found { FindsInstance world.now (reference_seen named.entry) result }
    ensures method { IfSome result (λ method. IsMethod world.now method.0) }
{
    let Some(method) = find_method(world, named) else {
        return None;
    };
    if is_static(world, method) {
        return None;
    }
    Some(method)
}

/// What a call on null comes to, where it was taken from the frame: where there is a method, an
/// exception is thrown.
pub fn choose_null(frame: &Frame, world: &World, named: Reference<'_>) -> Choice
    ensures { ChoosesNull world.now frame.now (reference_seen named.entry) result }
{
    let Some(found) = find_instance(world, named) else {
        return Choice::Missing;
    };
    if lacks_room(frame, world, found) {
        return Choice::Breaks;
    }
    Choice::Runs(found)
}

// What the selection comes to, from the method that the search found.
fn choose_from(
    heap: &Heap,
    frame: &Frame,
    world: &World,
    special: bool,
    at: Ref,
    found: MethodId,
) -> Choice
    requires runnable { IsRunnable world.now }
    requires frame { IsMethod world.now frame.now.method.0 }
    requires found { IsMethod world.now found.0 }
    ensures chosen { ChoosesFrom world.now frame.now heap.now special at found.0 result }
    ensures method { RunsMethod world.now result }
{
    if !is_known(heap, at) {
        return Choice::Breaks;
    }
    if !serves_as(world, heap, at, found) {
        return Choice::Breaks;
    }
    let Some(method) = selected(world, heap, frame.method, special, at, found) else {
        return Choice::Missing;
    };
    if lacks_room(frame, world, method) {
        return Choice::Breaks;
    }
    Choice::Runs(method)
}

/// What a call on the object comes to, where the receiver and the arguments were taken from the frame.
pub fn choose_on(
    heap: &Heap,
    frame: &Frame,
    world: &World,
    special: bool,
    named: Reference<'_>,
    at: Ref,
) -> Choice
    requires runnable { IsRunnable world.now }
    requires frame { IsMethod world.now frame.now.method.0 }
    ensures chosen { ChoosesOn world.now frame.now heap.now special at (reference_seen named.entry) result }
    ensures method { RunsMethod world.now result }
{
    let Some(found) = find_instance(world, named) else {
        return Choice::Missing;
    };
    choose_from(heap, frame, world, special, at, found)
}
