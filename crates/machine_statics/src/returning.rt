//! Returns from methods (JVMS 3.6.4, 6, `return` to `areturn`).

ghost use Rattle.std.specs.Prelude.{◌≡◌, ◌<◌, Bool, true, [], length, IfOk, OnErr};
ghost use Rattle.std.specs.Bool.{MatchBool};
ghost use Rattle.class_world.specs.Tables.{Known};
ghost use Rattle.machine_steps.specs.Programs.{IsRunnable};
ghost use Rattle.machine_steps.specs.Runs.{IsMethod, IsFormed};
ghost use Rattle.machine_invocations.specs.Keeping.{Keeps};
ghost use Rattle.machine_invocations.specs.Returning.{IsSettledResult, MovesOut, purpose_back};
ghost use Rattle.machine_statics.specs.Returns.{LeavesRunning, TellsKind, IsOnTop, IsResult, TellsSettled, ShowsResult, MovesFrom, Returns, is_mine};

use crate::operands::is_settled;
use aj_names::MethodId;
use class_machine::kinds::Kind;
use class_world::World;
use machine_code::{kind_in, result_type};
use machine_frames::{is_of, is_same_kind};
use machine_invocations::{declared, show, take_back};
use machine_steps::{Step, leave};
use machine_values::{Ending, Frame, Heap, MachineState, Purpose, Shown, Value};
use std::alloc::AllocError;

/// The kind of what the method returns, unless it is void (JVMS 4.3.3).
pub fn result_kind(world: &World, method: MethodId) -> Option<Kind>
    requires { IsMethod world.now method.0 }
    ensures { TellsKind world.now method.0 result }
{
    let descriptor = declared(world, method).method.name.descriptor.as_slice();
    let result = result_type(descriptor)?;
    Some(kind_in(result))
}

// The value on top of the operands, where it is of the kind.
fn value_on_top(frame: &Frame, kind: Kind) -> Option<Value>
    ensures { IsOnTop frame.now kind result }
{
    let value = frame.operands.as_slice().last()?;
    if is_of(kind, value) {
        Some(*value)
    } else {
        None
    }
}

/// What a return of the kind gives from a method whose result is of the other kind; none where the run
/// is Broken.
pub fn result_of(frame: &Frame, kind: Option<Kind>, returns: Option<Kind>) -> Option<Option<Value>>
    ensures { IsResult frame.now kind returns result }
{
    match (kind, returns) {
        (None, None) => Some(None),
        (Some(kind), Some(returns)) => {
            if !is_same_kind(kind, returns) {
                return None;
            }
            let value = value_on_top(frame, kind)?;
            Some(Some(value))
        }
        _ => None,
    }
}

// Whether the result, if there is one, refers to no object but one of the heap.
fn is_settled_result(heap: &Heap, value: Option<Value>) -> bool
    ensures { TellsSettled (length heap.now.names) value result }
{
    match value {
        None => true,
        Some(value) => is_settled(heap, value),
    }
}

/// The result as the ending shows it.
///
/// # Errors
/// Where there is no memory.
pub fn show_result(
    state: &MachineState,
    world: &World,
    value: Option<Value>,
) -> Result<Option<Shown>, AllocError>
    requires { IsSettledResult (length state.now.heap.names) value }
    ensures { IfOk result (λ shown. ShowsResult world.now state.now value shown) }
{
    match value {
        None => Ok(None),
        Some(value) => {
            let shown = show(*state.frames.allocator(), world, &state.heap, value)?;
            Ok(Some(shown))
        }
    }
}

// The step, which isn't left to another part of the machine: such a one is Broken.
fn own(step: Step) -> Step
    ensures mine { is_mine result ≡ true }
    ensures same { is_mine step ≡ true → result ≡ step }
{
    match step {
        Step::NotMine => Step::Ended(Ending::Broken),
        _ => step,
    }
}

/// Takes the running frame off and leaves its monitor; says whether there was one.
pub fn leave_running(state: &mut MachineState) -> bool
    ensures left { MatchBool result (LeavesRunning state.old state.new) (state.old.frames.items ≡ []) }
    ensures formed { (k : Known) → IsFormed k state.old → IsFormed k state.new }
{
    let Some(frame) = state.frames.pop() else {
        return false;
    };
    leave(&mut state.monitors, frame.monitor);
    true
}

// Out of the entry method, whose result ends the run.
fn finish(state: &mut MachineState, world: &World, value: Option<Value>) -> Result<Step, AllocError>
    requires formed { IsFormed world.now state.old }
    requires settled { IsSettledResult (length state.old.heap.names) value }
    requires last { length state.old.frames.items < 2 }
    ensures formed { IsFormed world.now state.new }
    ensures moves { IfOk result (λ step. (super : Bool) → MovesFrom world.now state.old state.new step (purpose_back super) value) }
    ensures mine { IfOk result (λ step. is_mine step ≡ true) }
    ensures err { OnErr result (Keeps world.now state.old state.new) }
{
    let shown = show_result(state, world, value)?;
    let _left = leave_running(state);
    Ok(Step::Ended(Ending::Returned(shown)))
}

// Out of the running frame, whose result goes to the frame below or ends the run; `super_call` where
// the frame is that of a this or super call.
fn leave_call(
    state: &mut MachineState,
    world: &World,
    super_call: bool,
    value: Option<Value>,
) -> Result<Step, AllocError>
    requires runnable { IsRunnable world.now }
    requires formed { IsFormed world.now state.old }
    requires settled { IsSettledResult (length state.old.heap.names) value }
    ensures formed { IsFormed world.now state.new }
    ensures moves { IfOk result (λ step. MovesFrom world.now state.old state.new step (purpose_back super_call) value) }
    ensures mine { IfOk result (λ step. is_mine step ≡ true) }
    ensures err { OnErr result (Keeps world.now state.old state.new) }
{
    let count = state.frames.len();
    if count < 2 {
        return finish(state, world, value);
    }
    if !leave_running(state) {
        return Ok(Step::Ended(Ending::Broken));
    }
    Ok(own(take_back(state, world, super_call, value)))
}

// Out of the running frame with the result, where it doesn't go to a call of the library.
fn leave_frame(
    state: &mut MachineState,
    world: &World,
    value: Option<Value>,
) -> Result<Step, AllocError>
    requires runnable { IsRunnable world.now }
    requires formed { IsFormed world.now state.old }
    requires settled { IsSettledResult (length state.old.heap.names) value }
    ensures formed { IsFormed world.now state.new }
    ensures moves { IfOk result (λ step. MovesOut world.now state.old state.new step value) }
    ensures mine { IfOk result (λ step. is_mine step ≡ true) }
    ensures err { OnErr result (Keeps world.now state.old state.new) }
{
    let Some(frame) = state.frames.last() else {
        return Ok(Step::Ended(Ending::Broken));
    };
    match frame.purpose {
        Purpose::Ordinary => leave_call(state, world, false, value),
        Purpose::Constructs => leave_call(state, world, true, value),
        Purpose::Initialises(_) => {
            let _left = leave_running(state);
            Ok(Step::Went)
        }
        Purpose::Within(_) => Ok(Step::Ended(Ending::Broken)),
    }
}

/// Out of the running frame with the result of the kind, if there is one: it goes to the frame below,
/// which waits at its call; out of the entry method it ends the run; and where a class was initialised
/// the frame below goes on where it stands (JVMS 2.17.4, 3.6.4). A result that goes to a call of the
/// library is for another part of the machine.
///
/// # Errors
/// Where there is no memory; the state stands for what it stood for then.
pub fn step_return(
    state: &mut MachineState,
    world: &World,
    kind: Option<Kind>,
) -> Result<Step, AllocError>
    requires runnable { IsRunnable world.now }
    requires formed { IsFormed world.now state.old }
    ensures formed { IsFormed world.now state.new }
    ensures moves { IfOk result (λ step. Returns world.now state.old state.new step kind) }
    ensures err { OnErr result (Keeps world.now state.old state.new) }
{
    let Some(frame) = state.frames.last() else {
        return Ok(Step::Ended(Ending::Broken));
    };
    if let Purpose::Within(_) = frame.purpose {
        return Ok(Step::NotMine);
    }
    let returns = result_kind(world, frame.method);
    let Some(value) = result_of(frame, kind, returns) else {
        return Ok(Step::Ended(Ending::Broken));
    };
    if !is_settled_result(&state.heap, value) {
        return Ok(Step::Ended(Ending::Broken));
    }
    leave_frame(state, world, value)
}
