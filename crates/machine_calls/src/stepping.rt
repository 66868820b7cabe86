//! The steps of the calls.

ghost use Rattle.std.specs.Prelude.{◌≡◌, IfOk, OnErr};
ghost use Rattle.machine_steps.specs.Parts.{Part, Takes};
ghost use Rattle.machine_steps.specs.Programs.{IsRunnable};
ghost use Rattle.machine_steps.specs.Runs.{IsFormed, answers_left};
ghost use Rattle.machine_invocations.specs.Keeping.{Keeps};
ghost use Rattle.machine_parts.specs.Lines.{StandsForOne};

use crate::executing::execute;
use class_world::World;
use machine_natives::close;
use machine_parts::running_operation;
use machine_steps::Step;
use machine_values::{Ending, MachineState, Script};
use std::alloc::AllocError;

/// One step of the machine, where it is that of a state without an instruction (JVMS 2.17.9), or where
/// the instruction at the running frame's place is a call, a return or one that may initialise a class
/// (JVMS 2.17.4, 3.6, 6). Calls of the library's methods, and returns into such calls, are left, as any
/// other step is: nothing is changed here.
///
/// # Errors
/// Where there is no memory; the state stands for what it stood for then, and the script is as it was.
pub fn step_calls(
    state: &mut MachineState,
    world: &World,
    script: &mut Script,
) -> Result<Step, AllocError>
    requires runnable { IsRunnable world.now }
    requires formed { IsFormed world.now state.old }
    requires there { StandsForOne world.now state.old }
    ensures formed { IsFormed world.now state.new }
    ensures takes { IfOk result (λ step. Takes Part.Calls world.now state.old state.new (answers_left script.old) (answers_left script.new) step) }
    ensures err { OnErr result (Keeps world.now state.old state.new) }
    ensures script { OnErr result (script.new ≡ script.old) }
{
    if state.frames.is_empty() {
        return close(state, world, script);
    }
    match running_operation(state, world) {
        Some(running) => execute(state, world, script, running.pool, running.operation),
        None => Ok(Step::Ended(Ending::Broken)),
    }
}
