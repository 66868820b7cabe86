//! Which part of the machine has an invocation.

ghost use Rattle.std.specs.Prelude.{◌≡◌, is_none, IfSome};
ghost use Rattle.class_file.specs.Lookup.{reference_seen};
ghost use Rattle.class_machine.specs.Classes.{Method};
ghost use Rattle.class_machine.specs.ClassFiles.{file_named};
ghost use Rattle.machine_steps.specs.Programs.{IsRunnable};
ghost use Rattle.machine_steps.specs.Runs.{IsMethod, IsFormed};
ghost use Rattle.machine_invocations.specs.Methods.{Sees};
ghost use Rattle.machine_invokes.specs.Belonging.{SelectsOn, FindsCalled, TellsLibrary};

use crate::peeks::{is_special, receiver_of};
use crate::selecting::{is_known, selected};
use aj_names::MethodId;
use class_file::Reference;
use class_machine::kinds::Mode;
use class_world::World;
use machine_invocations::{declaring_class, find_method};
use machine_values::{Frame, Heap, MachineState, Ref};

// The method that is selected on the object from the found one.
fn selected_on(
    world: &World,
    heap: &Heap,
    frame: &Frame,
    mode: Mode,
    at: Ref,
    found: MethodId,
) -> Option<MethodId>
    requires runnable { IsRunnable world.now }
    requires frame { IsMethod world.now frame.now.method.0 }
    requires found { IsMethod world.now found.0 }
    ensures selected { SelectsOn world.now heap.now frame.now mode at found.0 result }
    ensures method { IfSome result (λ method. IsMethod world.now method.0) }
{
    if !is_known(heap, at) {
        return None;
    }
    selected(world, heap, frame.method, is_special(mode), at, found)
}

// The method that the search finds, and where an object lies below the arguments the one that is
// selected on it.
fn called(state: &MachineState, world: &World, mode: Mode, named: Reference<'_>) -> Option<MethodId>
    requires runnable { IsRunnable world.now }
    requires formed { IsFormed world.now state.now }
    ensures found { FindsCalled world.now state.now mode (reference_seen named.entry) result }
    ensures method { IfSome result (λ method. IsMethod world.now method.0) }
{
    let Some(frame) = state.frames.last() else {
        return None;
    };
    let Some(found) = find_method(world, named) else {
        return None;
    };
    let Some(at) = receiver_of(frame, mode, named.member.descriptor) else {
        return Some(found);
    };
    selected_on(world, &state.heap, frame, mode, at, found)
}

// Whether the class that declares the method wasn't given as a file.
fn is_of_library(world: &World, method: MethodId) -> bool
    requires runnable { IsRunnable world.now }
    requires method { IsMethod world.now method.0 }
    ensures { (m : Method) → Sees world.now method.0 m → result ≡ is_none (file_named world.now.files m.name.class) }
{
    match world.file(declaring_class(world, method)) {
        Some(_file) => false,
        None => true,
    }
}

/// Whether the invocation at the running frame is one of a method of the library, native ones too: of
/// what the search finds and, where an object lies below the arguments, the selection on it. It changes
/// nothing and takes no memory.
pub fn is_library_call(
    state: &MachineState,
    world: &World,
    mode: Mode,
    named: Reference<'_>,
) -> bool
    requires runnable { IsRunnable world.now }
    requires formed { IsFormed world.now state.now }
    ensures { TellsLibrary world.now state.now mode (reference_seen named.entry) result }
{
    match called(state, world, mode, named) {
        Some(method) => is_of_library(world, method),
        None => false,
    }
}
