//! Results of frames (JVMS 3.6.4, 3.6.5).

ghost use Rattle.std.specs.Prelude.{◌<◌, length};
ghost use Rattle.machine_steps.specs.Moves.{Moves};
ghost use Rattle.machine_steps.specs.Programs.{IsRunnable};
ghost use Rattle.machine_steps.specs.Runs.{IsFormed};
ghost use Rattle.machine_invocations.specs.Returning.{IsSettledResult, MarksConstructed, goes_with, takes_back};

use class_world::World;
use machine_steps::{Step, give, go_on, running_code};
use machine_values::{Ending, MachineState, Value};

// Marks the running frame as one whose this or super call has returned.
fn mark_constructed(state: &mut MachineState)
    requires { 0 < length state.old.frames.items }
    ensures { MarksConstructed state.old state.new }
{
    let top = state.frames.len() - 1;
    state.frames[top].constructed = true;
}

// The running frame goes on at the place, with the value on top if there is one.
fn go_on_with(state: &mut MachineState, world: &World, value: Option<Value>, pc: u32) -> Step
    requires runnable { IsRunnable world.now }
    requires formed { IsFormed world.now state.old }
    requires settled { IsSettledResult (length state.old.heap.names) value }
    ensures formed { IsFormed world.now state.new }
    ensures gone { Moves world.now state.old state.new result (goes_with value state.old pc) }
{
    match value {
        Some(value) => give(state, world, value, pc),
        None => go_on(state, world, pc),
    }
}

/// The running frame, which waits at its call, takes the result and goes on behind the call;
/// `super_call` where that is a this or super call of a constructor (JVMS 3.6.4, 4.9.4). Where there
/// is no room for the result, or no instruction behind the call, the run is Broken.
pub fn take_back(
    state: &mut MachineState,
    world: &World,
    super_call: bool,
    value: Option<Value>,
) -> Step
    requires runnable { IsRunnable world.now }
    requires formed { IsFormed world.now state.old }
    requires settled { IsSettledResult (length state.old.heap.names) value }
    ensures formed { IsFormed world.now state.new }
    ensures taken { Moves world.now state.old state.new result (takes_back super_call value state.old) }
{
    let Some(code) = running_code(state, world) else {
        return Step::Ended(Ending::Broken);
    };
    let top = state.frames.len() - 1;
    let pc = code.next_place(state.frames[top].pc);
    if super_call {
        mark_constructed(state);
        return go_on_with(state, world, value, pc);
    }
    go_on_with(state, world, value, pc)
}
