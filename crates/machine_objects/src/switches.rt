//! Switches (JVMS 6, `tableswitch` and `lookupswitch`).

ghost use Rattle.std.specs.Prelude.{◌≡◌, ℤ, List};
ghost use Rattle.class_machine.specs.Operations.{Switch};
ghost use Rattle.machine_steps.specs.Executing.{executes};
ghost use Rattle.machine_steps.specs.Moves.{Moves};
ghost use Rattle.machine_steps.specs.Programs.{IsRunnable};
ghost use Rattle.machine_steps.specs.Runs.{IsFormed};
ghost use Rattle.machine_objects.specs.Switching.{StandsThere};

use crate::taking::{take_key, top_of};
use class_world::World;
use machine_steps::{Step, go_on, running_code};
use machine_values::{Ending, MachineState};

/// Goes on where the switch at the running frame's place leads with the int on top (JVMS 6,
/// `tableswitch` and `lookupswitch`).
pub fn switch(state: &mut MachineState, world: &World) -> Step
    requires runnable { IsRunnable world.now }
    requires formed { IsFormed world.now state.old }
    ensures formed { IsFormed world.now state.new }
    ensures moves { (keys : List ℤ) → StandsThere world.now state.old (Switch keys) → Moves world.now state.old state.new result (executes (Switch keys)) }
{
    let Some(code) = running_code(state, world) else {
        return Step::Ended(Ending::Broken);
    };
    let Some(top) = top_of(state) else {
        return Step::Ended(Ending::Broken);
    };
    let pc = state.frames[top].pc;
    let Some(key) = take_key(state) else {
        return Step::Ended(Ending::Broken);
    };
    go_on(state, world, code.switch_target(pc, key))
}
