//! The steps of the core.

ghost use Rattle.std.specs.Prelude.{List, IfOk, OnErr};
ghost use Rattle.machine_values.specs.declared.script.Answer.{Answer};
ghost use Rattle.machine_steps.specs.Parts.{Part, Takes};
ghost use Rattle.machine_steps.specs.Programs.{IsRunnable};
ghost use Rattle.machine_steps.specs.Runs.{IsFormed};
ghost use Rattle.machine_invocations.specs.Keeping.{Keeps};
ghost use Rattle.machine_core.specs.Taking.{IsOwn};
ghost use Rattle.machine_core.specs.Sparing.{MayNeed};

use crate::executing::execute;
use class_world::World;
use machine_parts::running_operation;
use machine_steps::Step;
use machine_values::MachineState;
use std::alloc::AllocError;

/// One step of the machine, where the instruction at the running frame's place is the core's (JVMS 6):
/// each but a return, a call, and what may initialise a class. Any other step is left, and changes
/// nothing here: it is never refused.
///
/// # Errors
/// Where there is no memory; the state stands for what it stood for then. An instruction that names
/// nothing in the constant pool and makes no object, array or exception and enters no monitor is never
/// refused, nor is a switch.
pub fn step_core(state: &mut MachineState, world: &World) -> Result<Step, AllocError>
    requires runnable { IsRunnable world.now }
    requires formed { IsFormed world.now state.old }
    ensures formed { IsFormed world.now state.new }
    ensures takes { IfOk result (λ step. (answers : List Answer) → Takes Part.Core world.now state.old state.new answers answers step) }
    ensures own { OnErr result (IsOwn world.now state.old) }
    ensures spared { OnErr result (MayNeed world.now state.old) }
    ensures err { OnErr result (Keeps world.now state.old state.new) }
{
    match running_operation(state, world) {
        Some(running) => execute(state, world, running.pool, running.operation),
        None => Ok(Step::NotMine),
    }
}
