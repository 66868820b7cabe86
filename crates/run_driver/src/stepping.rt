//! The step of the whole machine.

ghost use Rattle.std.specs.Prelude.{◌≡◌, IfOk, OnErr};
ghost use Rattle.machine_steps.specs.Programs.{IsRunnable};
ghost use Rattle.machine_steps.specs.Runs.{IsFormed, answers_left};
ghost use Rattle.machine_invocations.specs.Keeping.{Keeps};
ghost use Rattle.run_driver.specs.Stepping.{IsThere, Steps};

use class_world::World;
use machine_calls::step_calls;
use machine_core::step_core;
use machine_library::step_library;
use machine_steps::Step;
use machine_values::{MachineState, Script};
use std::alloc::AllocError;

/// Takes one step of the machine: exactly one of its three parts has it.
///
/// # Errors
/// Where there is no memory; the state stands for what it stood for then, and the same answers are left in
/// the script.
pub fn step(
    state: &mut MachineState,
    world: &World,
    script: &mut Script,
) -> Result<Step, AllocError>
    requires runnable { IsRunnable world.now }
    requires formed { IsFormed world.now state.old }
    requires there { IsThere world.now state.old (answers_left script.old) }
    ensures formed { IsFormed world.now state.new }
    ensures steps { IfOk result (λ step. Steps world.now state.old state.new (answers_left script.old) (answers_left script.new) step) }
    ensures err { OnErr result (Keeps world.now state.old state.new) }
    ensures answers { OnErr result (answers_left script.new ≡ answers_left script.old) }
{
    match step_core(state, world)? {
        Step::NotMine => {}
        step => return Ok(step),
    }
    match step_calls(state, world, script)? {
        Step::NotMine => step_library(state, world, script),
        step => Ok(step),
    }
}
