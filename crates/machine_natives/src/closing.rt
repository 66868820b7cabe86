//! The step of a state without frames (JVMS 2.17.1, 2.17.9).

ghost use Rattle.std.specs.Prelude.{◌≡◌, true, false, length, IfOk, OnErr};
ghost use Rattle.std.specs.List.{AllByRecursion};
ghost use Rattle.machine_values.specs.Standing.{is_settled, Settled};
ghost use Rattle.machine_values.specs.declared.state.Due.TheVariants.{Nothing};
ghost use Rattle.machine_steps.specs.Programs.{IsRunnable};
ghost use Rattle.machine_steps.specs.Runs.{IsMethod, IsFormed, answers_left};
ghost use Rattle.machine_natives.specs.declared.response.Response.TheVariants.{Returns, Throws};
ghost use Rattle.machine_invocations.specs.Returning.{IsSettledResult};
ghost use Rattle.machine_natives.specs.Closing.{Closes, EndsWith, ending_in, Answers};
ghost use Rattle.machine_natives.specs.Responses.{IsKnown};

use crate::calling::native_event;
use crate::responding::respond;
use crate::response::Response;
use aj_names::{InternalName, MethodId};
use class_world::World;
use machine_fields::class_at;
use machine_invocations::show;
use machine_steps::{Step, class_name, message_of};
use machine_values::{Due, Ending, Event, Heap, MachineState, Ref, Script, Value};
use std::alloc::AllocError;
use std::mem;

// An exception that nothing takes ends the run.
fn uncaught(state: &MachineState, world: &World, x: Ref) -> Result<Ending, AllocError>
    requires runnable { IsRunnable world.now }
    requires known { IsKnown world.now state.now.heap.names (Throws x) }
    ensures { IfOk result (λ ending. EndsWith world.now state.now (Throws x) ending) }
{
    let alloc = *state.frames.allocator();
    let Some(class) = class_at(world, &state.heap, x) else {
        return Ok(Ending::Broken);
    };
    let name = InternalName::from_slice(alloc, class_name(world, class))?;
    let message = message_of(state, world, class, x)?;
    Ok(Ending::Uncaught(name, message))
}

// The entry returned, with its result if it has one.
fn returned(state: &MachineState, world: &World, value: Option<Value>) -> Result<Ending, AllocError>
    requires { IsSettledResult (length state.now.heap.names) value }
    ensures { IfOk result (λ ending. EndsWith world.now state.now (Returns value) ending) }
{
    let Some(value) = value else {
        return Ok(Ending::Returned(None));
    };
    let seen = show(*state.frames.allocator(), world, &state.heap, value)?;
    Ok(Ending::Returned(Some(seen)))
}

// The ending that comes of what the script answered to the call of a native entry.
fn entry_ending(
    state: &MachineState,
    world: &World,
    response: Response,
) -> Result<Ending, AllocError>
    requires runnable { IsRunnable world.now }
    requires known { IsKnown world.now state.now.heap.names response }
    ensures { IfOk result (λ ending. EndsWith world.now state.now response ending) }
{
    match response {
        Response::Returns(value) => returned(state, world, value),
        Response::Throws(x) => uncaught(state, world, x),
        Response::Lacks => Ok(Ending::ScriptEnds),
    }
}

// Calls the native entry; its answer ends the run one step later.
fn call_entry(
    state: &mut MachineState,
    world: &World,
    script: &mut Script,
    method: MethodId,
    event: Event,
) -> Result<Step, AllocError>
    requires runnable { IsRunnable world.now }
    requires formed { IsFormed world.now state.old }
    requires method { IsMethod world.now method.0 }
    ensures formed { IsFormed world.now state.new }
    ensures answers { IfOk result (λ step. Answers world.now state.old state.new (answers_left script.old) (answers_left script.new) method.0 event step) }
    ensures err { OnErr result (state.new ≡ state.old) }
    ensures script { OnErr result (script.new ≡ script.old) }
{
    let alloc = *state.frames.allocator();
    let count = state.heap.count();
    let next = script.next;
    let response = respond(alloc, &mut state.heap, world, script, method)?;
    match entry_ending(state, world, response) {
        Ok(ending) => {
            state.due = Due::Finally(ending);
            Ok(Step::Said(event))
        }
        Err(failed) => {
            state.heap.truncate(count);
            script.next = next;
            Err(failed)
        }
    }
}

fn is_settled(heap: &Heap, value: Value) -> bool
    ensures { result ≡ is_settled (length heap.now.names) value }
{
    match value {
        Value::Reference(at) => (at.0 as usize) < heap.count(),
        Value::Token(_, _) | Value::ReturnAddress(_) => false,
        _ => true,
    }
}

// Whether the values are plain ones, and name objects there are.
fn are_settled(heap: &Heap, given: &[Value]) -> bool
    ensures settled { result ≡ true → AllByRecursion (Settled (length heap.now.names)) given.now }
    ensures unsettled { result ≡ false → AllByRecursion (Settled (length heap.now.names)) given.now → ⊥ }
{
    'values: for value in given {
        if !is_settled(heap, *value) {
            return false;
        }
    }
    true
}

// Takes the ending that is due; where none is, that of a Broken run.
fn take_ending(due: &mut Due) -> Ending
    ensures taken { result ≡ ending_in due.old }
    ensures rest { due.new ≡ Nothing }
{
    match mem::replace(due, Due::Nothing) {
        Due::Finally(ending) => ending,
        _ => Ending::Broken,
    }
}

/// The step of a state that has no frame. A native entry that is due is called: the step says its
/// event, and the answer ends the run one step later. An ending that is due is the run's; where
/// nothing is due the run is Broken.
///
/// # Errors
/// Where there is no memory; the state and the script are as they were then.
pub fn close(
    state: &mut MachineState,
    world: &World,
    script: &mut Script,
) -> Result<Step, AllocError>
    requires runnable { IsRunnable world.now }
    requires formed { IsFormed world.now state.old }
    ensures formed { IsFormed world.now state.new }
    ensures closes { IfOk result (λ step. Closes world.now state.old state.new (answers_left script.old) (answers_left script.new) step) }
    ensures err { OnErr result (state.new ≡ state.old) }
    ensures script { OnErr result (script.new ≡ script.old) }
{
    match &state.due {
        Due::Nothing => Ok(Step::Ended(Ending::Broken)),
        Due::Finally(_) => Ok(Step::Ended(take_ending(&mut state.due))),
        Due::NativeEntry(method, given) => {
            if !are_settled(&state.heap, given.as_slice()) {
                return Ok(Step::Ended(Ending::Broken));
            }
            let method = *method;
            let alloc = *state.frames.allocator();
            let event = native_event(alloc, world, &state.heap, method, None, given.as_slice())?;
            call_entry(state, world, script, method, event)
        }
    }
}
