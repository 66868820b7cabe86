//! Instructions by their semantic forms (JVMS 6). What the pool doesn't name is no instruction: the
//! steps here leave it.

ghost use Rattle.std.specs.Prelude.{◌≡◌, List, IfOk, OnErr};
ghost use Rattle.class_machine.specs.Operations.{Do};
ghost use Rattle.machine_values.specs.declared.script.Answer.{Answer};
ghost use Rattle.machine_steps.specs.Parts.{Part};
ghost use Rattle.machine_steps.specs.Programs.{IsRunnable};
ghost use Rattle.machine_steps.specs.Runs.{IsFormed, answers_left};
ghost use Rattle.machine_invocations.specs.Keeping.{Keeps};
ghost use Rattle.machine_parts.specs.Lines.{StandsForOne, TakesLine, TakesForm};

use class_file::PoolEntry;
use class_machine::kinds::Mode;
use class_machine::meaning::Basic;
use class_world::World;
use machine_calling::invoke;
use machine_code::{Operation, invoked};
use machine_invokes::is_library_call;
use machine_returns::return_text;
use machine_steps::Step;
use machine_values::{MachineState, Script};
use std::alloc::AllocError;

// A return that goes to a call of the library is executed.
fn execute_basic(state: &mut MachineState, world: &World, basic: Basic) -> Result<Step, AllocError>
    requires runnable { IsRunnable world.now }
    requires formed { IsFormed world.now state.old }
    requires there { StandsForOne world.now state.old }
    ensures formed { IsFormed world.now state.new }
    ensures takes { IfOk result (λ step. (left : List Answer) → TakesLine Part.Library world.now state.old state.new left left step (Do basic)) }
    ensures err { OnErr result (Keeps world.now state.old state.new) }
{
    match basic {
        Basic::Return(kind) => return_text(state, world, kind),
        _ => Ok(Step::NotMine),
    }
}

// The method is called, where it is the library's.
fn call(
    state: &mut MachineState,
    world: &World,
    script: &mut Script,
    pool: &[PoolEntry],
    mode: Mode,
    index: u16,
) -> Result<Step, AllocError>
    requires runnable { IsRunnable world.now }
    requires formed { IsFormed world.now state.old }
    requires there { StandsForOne world.now state.old }
    ensures formed { IsFormed world.now state.new }
    ensures takes { IfOk result (λ step. TakesForm Part.Library world.now state.old state.new (answers_left script.old) (answers_left script.new) step pool.now (Operation.Invoke mode index)) }
    ensures err { OnErr result (Keeps world.now state.old state.new) }
    ensures script { OnErr result (script.new ≡ script.old) }
{
    let Some(named) = invoked(pool, index, mode) else {
        return Ok(Step::NotMine);
    };
    if is_library_call(state, world, mode, named) {
        invoke(state, world, script, mode, named)
    } else {
        Ok(Step::NotMine)
    }
}

/// Executes the library's instruction, and leaves any other one.
///
/// # Errors
/// Where there is no memory; the state stands for what it stood for then, and the script is as it was.
pub(crate) fn execute(
    state: &mut MachineState,
    world: &World,
    script: &mut Script,
    pool: &[PoolEntry],
    operation: Operation,
) -> Result<Step, AllocError>
    requires runnable { IsRunnable world.now }
    requires formed { IsFormed world.now state.old }
    requires there { StandsForOne world.now state.old }
    ensures formed { IsFormed world.now state.new }
    ensures takes { IfOk result (λ step. TakesForm Part.Library world.now state.old state.new (answers_left script.old) (answers_left script.new) step pool.now operation) }
    ensures err { OnErr result (Keeps world.now state.old state.new) }
    ensures script { OnErr result (script.new ≡ script.old) }
{
    match operation {
        Operation::Do(basic) => execute_basic(state, world, basic),
        Operation::Invoke(mode, index) => call(state, world, script, pool, mode, index),
        _ => Ok(Step::NotMine),
    }
}
