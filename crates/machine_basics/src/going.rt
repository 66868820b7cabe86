//! On within the running frame (JVMS 3.11.7). Nothing here takes memory.

ghost use Rattle.machine_steps.specs.Programs.{IsRunnable};
ghost use Rattle.machine_steps.specs.Runs.{IsFormed};
ghost use Rattle.machine_steps.specs.Moves.{Moves};
ghost use Rattle.machine_basics.specs.Turns.{goes_next, jumps, enters};

use class_world::World;
use machine_invocations::take_back;
use machine_steps::{Step, go_on, running_code};
use machine_values::{Ending, MachineState, Value};

/// The running frame goes on behind its instruction.
pub(crate) fn go_next(state: &mut MachineState, world: &World) -> Step
    requires runnable { IsRunnable world.now }
    requires formed { IsFormed world.now state.old }
    ensures formed { IsFormed world.now state.new }
    ensures moves { Moves world.now state.old state.new result goes_next }
{
    take_back(state, world, false, None)
}

/// The running frame goes on at the target of this number.
pub(crate) fn jump(state: &mut MachineState, world: &World, number: u32) -> Step
    requires runnable { IsRunnable world.now }
    requires formed { IsFormed world.now state.old }
    ensures formed { IsFormed world.now state.new }
    ensures moves { Moves world.now state.old state.new result (jumps number) }
{
    let Some(code) = running_code(state, world) else {
        return Step::Ended(Ending::Broken);
    };
    let top = state.frames.len() - 1;
    let pc = code.target(state.frames[top].pc, number);
    go_on(state, world, pc)
}

/// The running frame goes on at the target of this number, with the place behind its instruction as a
/// return address on top (JVMS 3.3.3, 6, `jsr`).
pub(crate) fn enter(state: &mut MachineState, world: &World, number: u32) -> Step
    requires runnable { IsRunnable world.now }
    requires formed { IsFormed world.now state.old }
    ensures formed { IsFormed world.now state.new }
    ensures moves { Moves world.now state.old state.new result (enters number) }
{
    let Some(code) = running_code(state, world) else {
        return Step::Ended(Ending::Broken);
    };
    let top = state.frames.len() - 1;
    let frame = &mut state.frames[top];
    let target = code.target(frame.pc, number);
    let next = code.next_place(frame.pc);
    if !frame.operands.push(Value::ReturnAddress(next)) {
        return Step::Ended(Ending::Broken);
    }
    go_on(state, world, target)
}
