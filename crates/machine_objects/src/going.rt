//! On behind an instruction, with what came of it.

ghost use Rattle.std.specs.Prelude.{◌≡◌, List, length, reverse, IfOk, OnErr};
ghost use Rattle.std.specs.Bool.{MatchBool};
ghost use Rattle.machine_values.specs.declared.state.MachineState.{MachineState as StateOf};
ghost use Rattle.machine_values.specs.declared.values.Value.{Value as ValueOf};
ghost use Rattle.machine_values.specs.Standing.{held, Settled};
ghost use Rattle.machine_steps.specs.Moves.{Moves};
ghost use Rattle.machine_steps.specs.Programs.{IsRunnable};
ghost use Rattle.machine_steps.specs.Runs.{IsFormed};
ghost use Rattle.machine_objects.specs.Following.{TellsNext, goes_next, goes_next_with, HasRoom, LacksRoom, IsLacking, Follows};
ghost use Rattle.machine_objects.specs.Making.{FollowsNew};
ghost use Rattle.machine_objects.specs.Taking.{IsTakenFrom};

use crate::taking::{is_settled, restore, top_of};
use class_world::World;
use machine_requests::Reply;
use machine_steps::{Step, fail, give, go_on, running_code};
use machine_values::{Ending, MachineState, Value};
use std::alloc::AllocError;

// The place behind the running frame's instruction, or its own place where none begins there.
fn next_place(state: &MachineState, world: &World) -> u32
    requires runnable { IsRunnable world.now }
    requires formed { IsFormed world.now state.now }
    ensures { TellsNext world.now state.now result }
{
    let Some(top) = top_of(state) else {
        return 0;
    };
    let pc = state.frames[top].pc;
    match running_code(state, world) {
        Some(code) => code.next_place(pc),
        None => pc,
    }
}

/// The running frame goes on behind its instruction, with what it holds. Where no instruction stands
/// there the run is Broken.
pub(crate) fn go_on_next(state: &mut MachineState, world: &World) -> Step
    requires runnable { IsRunnable world.now }
    requires formed { IsFormed world.now state.old }
    ensures formed { IsFormed world.now state.new }
    ensures moves { Moves world.now state.old state.new result goes_next }
{
    let pc = next_place(state, world);
    go_on(state, world, pc)
}

/// The running frame goes on behind its instruction, with the value on top. Where there is no room for
/// it the run is Broken.
pub(crate) fn give_next(state: &mut MachineState, world: &World, value: Value) -> Step
    requires runnable { IsRunnable world.now }
    requires formed { IsFormed world.now state.old }
    ensures formed { IsFormed world.now state.new }
    ensures moves { Settled (length state.old.heap.names) value → Moves world.now state.old state.new result (goes_next_with (λ m t. held m.setting.heads state.old.heap.names value)) }
{
    if !is_settled(&state.heap, value) {
        return Step::Ended(Ending::Broken);
    }
    let pc = next_place(state, world);
    give(state, world, value, pc)
}

/// Whether the running frame has room for a reference.
pub(crate) fn has_room(state: &MachineState) -> bool
    ensures { MatchBool result (HasRoom state.now) (LacksRoom state.now) }
{
    let Some(top) = top_of(state) else {
        return false;
    };
    state.frames[top].operands.has_room(1)
}

/// The running frame goes on behind its instruction with the new reference on top that the reply gives.
pub(crate) fn give_new(state: &mut MachineState, world: &World, reply: Reply) -> Step
    requires runnable { IsRunnable world.now }
    requires formed { IsFormed world.now state.old }
    ensures formed { IsFormed world.now state.new }
    ensures follows { (vs : List ValueOf) → FollowsNew world.now state.old state.new result reply vs }
{
    let Reply::Gives(value) = reply else {
        return Step::Ended(Ending::Broken);
    };
    give_next(state, world, value)
}

/// The running frame, from which these values were taken, the last one topmost, goes on with the reply
/// (JVMS 3.10, 6). An exception is thrown from the frame as it was. Where there is no room for what is
/// given the run is Broken.
///
/// # Errors
/// Where there is no memory; the frame is as it was then.
pub(crate) fn follow(
    state: &mut MachineState,
    world: &World,
    reply: Reply,
    taken: &[Value],
) -> Result<Step, AllocError>
    requires runnable { IsRunnable world.now }
    requires formed { IsFormed world.now state.old }
    requires lacking { IsLacking (reverse taken.now) state.old }
    ensures formed { IsFormed world.now state.new }
    ensures moves { IfOk result (λ step. Follows world.now state.old state.new step reply (reverse taken.now)) }
    ensures err { OnErr result ((before : StateOf) → IsTakenFrom (reverse taken.now) before state.old → state.new ≡ record state.old { frames = before.frames }) }
{
    match reply {
        Reply::Gives(value) => Ok(give_next(state, world, value)),
        Reply::Done => Ok(go_on_next(state, world)),
        Reply::Faults(fault) => {
            restore(state, taken);
            fail(state, world, fault)
        }
        Reply::Refuses => Ok(Step::Ended(Ending::Broken)),
    }
}
