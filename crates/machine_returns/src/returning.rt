//! Returns into calls of the library that wait for a text.

ghost use Rattle.std.specs.Prelude.{◌≡◌, ◌≤◌, ◌<◌, true, false, length, slice_get, Some, IfOk, OnErr};
ghost use Rattle.class_machine.specs.declared.meaning.Basic.TheVariants as basic;
ghost use Rattle.class_machine.specs.Operations.{Do};
ghost use Rattle.machine_values.specs.Standing.{Settled};
ghost use Rattle.machine_rules.specs.Works.{IsKnownWait};
ghost use Rattle.machine_steps.specs.Executing.{executes};
ghost use Rattle.machine_steps.specs.Moves.{Moves};
ghost use Rattle.machine_steps.specs.Programs.{IsRunnable};
ghost use Rattle.machine_steps.specs.Runs.{IsFormed};
ghost use Rattle.machine_invocations.specs.Keeping.{Keeps};
ghost use Rattle.machine_invocations.specs.Returning.{IsSettledResult};
ghost use Rattle.machine_parts.specs.Lines.{StandsForOne};
ghost use Rattle.machine_returns.specs.Returns.{IsLeft, MovesWithin, brings_text};

use class_machine::kinds::Kind;
use class_world::World;
use machine_rules::{Work, resume};
use machine_statics::{leave_running, result_kind, result_of, show_result};
use machine_steps::{Step, leave};
use machine_values::{Ending, MachineState, Purpose, Value, Wait};
use machine_works::end_call;
use std::alloc::AllocError;

// The call that waits in the frame below takes the text, once the running frame is left.
fn give_text(
    state: &mut MachineState,
    world: &World,
    wait: Wait,
    text: Value,
) -> Result<Step, AllocError>
    requires runnable { IsRunnable world.now }
    requires formed { IsFormed world.now state.old }
    requires there { StandsForOne world.now state.old }
    requires wait { IsKnownWait (length state.old.heap.names) wait }
    requires text { Settled (length state.old.heap.names) text }
    requires waiting { 2 ≤ length state.old.frames.items }
    ensures formed { IsFormed world.now state.new }
    ensures moves { IfOk result (λ step. MovesWithin world.now state.old state.new step wait (Some text)) }
    ensures err { OnErr result (Keeps world.now state.old state.new) }
{
    let alloc = *state.frames.allocator();
    let work = resume(alloc, &mut state.heap, world, &wait, text)?;
    let Some(frame) = state.frames.pop() else {
        return Ok(Step::Ended(Ending::Broken));
    };
    leave(&mut state.monitors, frame.monitor);
    match work {
        Work::Results(said, value) => Ok(end_call(state, world, false, said, value)),
        _ => Ok(Step::Ended(Ending::Broken)),
    }
}

// Out of the entry method, whose result ends the run.
fn finish(
    state: &mut MachineState,
    world: &World,
    wait: Wait,
    value: Option<Value>,
) -> Result<Step, AllocError>
    requires formed { IsFormed world.now state.old }
    requires settled { IsSettledResult (length state.old.heap.names) value }
    requires last { length state.old.frames.items < 2 }
    ensures formed { IsFormed world.now state.new }
    ensures moves { IfOk result (λ step. MovesWithin world.now state.old state.new step wait value) }
    ensures err { OnErr result (Keeps world.now state.old state.new) }
{
    let shown = show_result(state, world, value)?;
    let _left = leave_running(state);
    Ok(Step::Ended(Ending::Returned(shown)))
}

// Out of the running frame with the result, which goes to the call that waits. No result is no text.
fn leave_within(
    state: &mut MachineState,
    world: &World,
    wait: Wait,
    value: Option<Value>,
) -> Result<Step, AllocError>
    requires runnable { IsRunnable world.now }
    requires formed { IsFormed world.now state.old }
    requires there { StandsForOne world.now state.old }
    requires wait { IsKnownWait (length state.old.heap.names) wait }
    requires settled { IsSettledResult (length state.old.heap.names) value }
    ensures formed { IsFormed world.now state.new }
    ensures moves { IfOk result (λ step. MovesWithin world.now state.old state.new step wait value) }
    ensures err { OnErr result (Keeps world.now state.old state.new) }
{
    let count = state.frames.len();
    if count < 2 {
        return finish(state, world, wait, value);
    }
    match value {
        Some(text) => give_text(state, world, wait, text),
        None => Ok(Step::Ended(Ending::Broken)),
    }
}

/// Out of the running frame with the result of the kind, where it goes to a call of the library: the
/// call, which waits in the frame below, goes on with the text (JVMS 3.6.4, 6, `areturn`). Any other
/// return is for another part of the machine.
///
/// # Errors
/// Where there is no memory; the state stands for what it stood for then.
pub fn return_text(
    state: &mut MachineState,
    world: &World,
    kind: Option<Kind>,
) -> Result<Step, AllocError>
    requires runnable { IsRunnable world.now }
    requires formed { IsFormed world.now state.old }
    requires there { StandsForOne world.now state.old }
    ensures formed { IsFormed world.now state.new }
    ensures moves { brings_text state.old ≡ true → IfOk result (λ step. Moves world.now state.old state.new step (executes (Do (basic.Return kind)))) }
    ensures others { brings_text state.old ≡ false → IsLeft state.old state.new result }
    ensures err { OnErr result (Keeps world.now state.old state.new) }
{
    let Some(frame) = state.frames.last() else {
        return Ok(Step::NotMine);
    };
    let Purpose::Within(wait) = frame.purpose else {
        return Ok(Step::NotMine);
    };
    let returns = result_kind(world, frame.method);
    match result_of(frame, kind, returns) {
        Some(value) => leave_within(state, world, wait, value),
        None => Ok(Step::Ended(Ending::Broken)),
    }
}
