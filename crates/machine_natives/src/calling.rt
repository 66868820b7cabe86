//! Calls of native methods (JVMS 2.10.3, 3.6.4, 3.10).

ghost use Rattle.std.specs.Prelude.{◌≡◌, ◌<◌, true, [], length, is_some, IfOk, OnErr};
ghost use Rattle.std.specs.List.{AllByRecursion};
ghost use Rattle.class_heads.specs.Hierarchy.{place_of};
ghost use Rattle.class_world.specs.Tables.{Known};
ghost use Rattle.class_machine.specs.Classes.{Method};
ghost use Rattle.class_machine.specs.Values.{class_of};
ghost use Rattle.machine_values.specs.Observed.{method_reference};
ghost use Rattle.machine_values.specs.Standing.{name_of, Settled};
ghost use Rattle.machine_values.specs.States.{is_known_object};
ghost use Rattle.machine_steps.specs.Programs.{IsRunnable};
ghost use Rattle.machine_steps.specs.Runs.{IsMethod, IsFormed, answers_left};
ghost use Rattle.machine_invocations.specs.Methods.{Sees};
ghost use Rattle.machine_invocations.specs.Returning.{IsSettledResult};
ghost use Rattle.machine_invocations.specs.Showing.{AreShown};
ghost use Rattle.machine_natives.specs.Calls.{values_given, ShowsCall, ComesBack, GoesOut, EndsScript, CallsNative};

use crate::responding::respond;
use crate::response::Response;
use aj_names::{Items, MethodId, MethodName};
use class_world::World;
use machine_invocations::{declared, show, take_back};
use machine_steps::{Step, raise, tell};
use machine_values::{Ending, Event, Heap, MachineState, Ref, Script, Shown, Value};
use std::alloc::{AllocError, Global};

/// What a native call comes to.
#[derive(Drop)]
pub enum Called {
    /// The step is done.
    Done(Step),
    /// The script has no answer to the call of this event that fits.
    Lacks(Event),
}

// The receiver, if there is one, as an event shows it.
fn shown_receiver(
    alloc: Global,
    world: &World,
    heap: &Heap,
    receiver: Option<Ref>,
) -> Result<Vec<Shown>, AllocError>
    requires { is_known_object (length heap.now.names) receiver ≡ true }
    ensures { IfOk result (λ seen. AreShown world.now heap.now (values_given receiver []) seen.items) }
{
    let mut seen = Vec::new(alloc);
    match receiver {
        None => Ok(seen),
        Some(at) => {
            let shown = show(alloc, world, heap, Value::Reference(at))?;
            seen.push(shown)?;
            Ok(seen)
        }
    }
}

// The receiver, if there is one, and the arguments, as an event shows them.
fn shown_values(
    alloc: Global,
    world: &World,
    heap: &Heap,
    receiver: Option<Ref>,
    given: &[Value],
) -> Result<Items<Shown>, AllocError>
    requires receiver { is_known_object (length heap.now.names) receiver ≡ true }
    requires given { AllByRecursion (Settled (length heap.now.names)) given.now }
    ensures { IfOk result (λ seen. AreShown world.now heap.now (values_given receiver given.now) seen) }
{
    let mut seen = shown_receiver(alloc, world, heap, receiver)?;
    'arguments: for value in given {
        let shown = show(alloc, world, heap, *value)?;
        seen.push(shown)?;
    }
    Ok(Items::from_vec(seen))
}

// The method, by the class that declares it.
fn method_name(world: &World, method: MethodId) -> Result<MethodName, AllocError>
    requires { IsMethod world.now method.0 }
    ensures { IfOk result (λ name. (callee : Method) → Sees world.now method.0 callee → method_reference name ≡ callee.name) }
{
    let declaration = declared(world, method);
    let class = declaration.head.name.copy()?;
    let name = declaration.method.name.name.copy()?;
    let descriptor = declaration.method.name.descriptor.copy()?;
    Ok(MethodName {
        class,
        name,
        descriptor,
        interface: false,
    })
}

/// The event of a call of a native method.
pub(crate) fn native_event(
    alloc: Global,
    world: &World,
    heap: &Heap,
    method: MethodId,
    receiver: Option<Ref>,
    given: &[Value],
) -> Result<Event, AllocError>
    requires method { IsMethod world.now method.0 }
    requires receiver { is_known_object (length heap.now.names) receiver ≡ true }
    requires given { AllByRecursion (Settled (length heap.now.names)) given.now }
    ensures { IfOk result (λ event. ShowsCall world.now heap.now method.0 receiver given.now event) }
{
    let name = method_name(world, method)?;
    let values = shown_values(alloc, world, heap, receiver, given)?;
    Ok(Event::Native(name, values))
}

// The event, and the result goes to the running frame.
fn come_back(
    state: &mut MachineState,
    world: &World,
    event: Event,
    super_call: bool,
    value: Option<Value>,
) -> Step
    requires runnable { IsRunnable world.now }
    requires formed { IsFormed world.now state.old }
    requires settled { IsSettledResult (length state.old.heap.names) value }
    ensures formed { IsFormed world.now state.new }
    ensures comes { ComesBack world.now state.old state.new event super_call value result }
{
    let step = take_back(state, world, super_call, value);
    tell(state, event, step)
}

// The event, and the exception goes out of the running frame.
fn go_out(state: &mut MachineState, world: &World, event: Event, x: Ref) -> Result<Step, AllocError>
    requires runnable { IsRunnable world.now }
    requires formed { IsFormed world.now state.old }
    requires known { x.0 < length state.old.heap.names }
    requires class { is_some (place_of world.now.heads (class_of (name_of world.now.heads state.old.heap.names x))) ≡ true }
    ensures formed { IsFormed world.now state.new }
    ensures goes { IfOk result (λ step. GoesOut world.now state.old state.new event x step) }
    ensures err { OnErr result (state.new ≡ state.old) }
{
    let step = raise(state, world, x)?;
    Ok(tell(state, event, step))
}

/// The event of a native call, and the run ends one step later since the script has no answer that
/// fits.
pub fn end_script(state: &mut MachineState, event: Event) -> Step
    ensures formed { (k : Known) → IsFormed k state.old → IsFormed k state.new }
    ensures ends { EndsScript state.old state.new event result }
{
    tell(state, event, Step::Ended(Ending::ScriptEnds))
}

/// Calls a native method: the step says its event, and the script answers. The running frame, which
/// waits at its call with the arguments taken, takes the result and goes on behind the call
/// (`super_call` where that is a this or super call of a constructor), or an exception leaves it. Where
/// the script has no answer that fits nothing is done (JVMS 2.10.3, 3.6.4, 3.10).
///
/// # Errors
/// Where there is no memory; the state and the script are as they were then.
pub fn call_native(
    state: &mut MachineState,
    world: &World,
    script: &mut Script,
    method: MethodId,
    receiver: Option<Ref>,
    given: &[Value],
    super_call: bool,
) -> Result<Called, AllocError>
    requires runnable { IsRunnable world.now }
    requires formed { IsFormed world.now state.old }
    requires method { IsMethod world.now method.0 }
    requires receiver { is_known_object (length state.old.heap.names) receiver ≡ true }
    requires given { AllByRecursion (Settled (length state.old.heap.names)) given.now }
    ensures formed { IsFormed world.now state.new }
    ensures called { IfOk result (λ called. (callee : Method) → Sees world.now method.0 callee → CallsNative world.now state.old state.new (answers_left script.old) (answers_left script.new) callee receiver given.now super_call called) }
    ensures err { OnErr result (state.new ≡ state.old) }
    ensures script { OnErr result (script.new ≡ script.old) }
{
    let alloc = *state.frames.allocator();
    let event = native_event(alloc, world, &state.heap, method, receiver, given)?;
    let count = state.heap.count();
    let next = script.next;
    let response = respond(alloc, &mut state.heap, world, script, method)?;
    match response {
        Response::Returns(value) => {
            let step = come_back(state, world, event, super_call, value);
            Ok(Called::Done(step))
        }
        Response::Throws(x) => match go_out(state, world, event, x) {
            Ok(step) => Ok(Called::Done(step)),
            Err(failed) => {
                state.heap.truncate(count);
                script.next = next;
                Err(failed)
            }
        },
        Response::Lacks => Ok(Called::Lacks(event)),
    }
}
