//! The first frame of a run, with the initialisers of its class above it (JVMS 2.17.4, 3.6).

ghost use Rattle.std.specs.Prelude.{◌≡◌, length, List, ℕ, IfOk, OnOk};
ghost use Rattle.std.specs.List.{AllByRecursion};
ghost use Rattle.class_machine.specs.Classes.{Method, member_text};
ghost use Rattle.machine_values.specs.Standing.{Settled};
ghost use Rattle.machine_steps.specs.Programs.{IsRunnable};
ghost use Rattle.machine_steps.specs.Runs.{IsMethod, IsFormed};
ghost use Rattle.machine_invocations.specs.Methods.{Sees};
ghost use Rattle.machine_start.specs.Opening.{Opens, Triggers, natively, by_code};

use aj_names::{Items, MethodId};
use class_world::World;
use machine_invocations::{
    begin, call_frame, declared, declaring_class, fits, member_text, push_call,
};
use machine_steps::code_of_method;
use machine_values::{Due, Ending, MachineState, Purpose, Value};
use std::alloc::{AllocError, Global};

// The initialisers of the method's class that are pending come first.
fn trigger(state: &mut MachineState, world: &World, method: MethodId) -> Result<(), AllocError>
    requires runnable { IsRunnable world.now }
    requires formed { IsFormed world.now state.old }
    requires method { IsMethod world.now method.0 }
    ensures ok { OnOk result ((callee : Method) → Sees world.now method.0 callee → Triggers world.now state.old state.new callee) }
    ensures formed { IsFormed world.now state.new }
{
    let class = declaring_class(world, method);
    let _pending = begin(state, world, class)?;
    Ok(())
}

/// A native entry has no frame, and is still to be called.
pub(crate) fn open_native(
    state: &mut MachineState,
    world: &World,
    method: MethodId,
    given: Items<Value>,
) -> Result<(), AllocError>
    requires runnable { IsRunnable world.now }
    requires formed { IsFormed world.now state.old }
    requires method { IsMethod world.now method.0 }
    requires given { AllByRecursion (Settled (length state.old.heap.names)) given }
    ensures ok { OnOk result ((callee : Method) → Sees world.now method.0 callee → Opens world.now state.old state.new (natively callee given state.old)) }
    ensures formed { IsFormed world.now state.new }
{
    state.due = Due::NativeEntry(method, given);
    trigger(state, world, method)
}

// The dotted name of the method's class, a dot and its name.
fn text_of(alloc: Global, world: &World, method: MethodId) -> Result<Items<u8>, AllocError>
    requires { IsMethod world.now method.0 }
    ensures { IfOk result (λ text. (callee : Method) → Sees world.now method.0 callee → text ≡ member_text callee.name) }
{
    let place = declared(world, method);
    let class = place.head.name.as_slice();
    member_text(alloc, class, place.method.name.name.as_slice())
}

/// Any other entry gets a frame, with the arguments as its first locals. Where it has no code, it is
/// unresolved; where the code has too few locals, the run is Broken.
pub(crate) fn open_code(
    state: &mut MachineState,
    world: &World,
    method: MethodId,
    given: &[Value],
) -> Result<(), AllocError>
    requires runnable { IsRunnable world.now }
    requires formed { IsFormed world.now state.old }
    requires method { IsMethod world.now method.0 }
    requires given { AllByRecursion (Settled (length state.old.heap.names)) given.now }
    ensures ok { OnOk result ((callee : Method) → Sees world.now method.0 callee → Opens world.now state.old state.new (by_code callee given.now state.old)) }
    ensures formed { OnOk result (IsFormed world.now state.new) }
{
    let alloc = *state.frames.allocator();
    let Some(code) = code_of_method(world, method) else {
        let text = text_of(alloc, world, method)?;
        state.due = Due::Finally(Ending::Unresolved(text));
        return Ok(());
    };
    let entry = code.entry();
    if !fits(given, entry.locals) {
        state.due = Due::Finally(Ending::Broken);
        return Ok(());
    }
    let frame = call_frame(alloc, method, entry, given, Purpose::Ordinary)?;
    push_call(state, world, method, None, frame)?;
    trigger(state, world, method)
}
