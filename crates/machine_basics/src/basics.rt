//! The step of an instruction that names nothing in the constant pool (JVMS 6).

ghost use Rattle.std.specs.Prelude.{◌≡◌, true, false, Ok, IfOk, OnErr};
ghost use Rattle.class_machine.specs.Operations.{Do};
ghost use Rattle.machine_steps.specs.declared.step.Step.TheVariants.{NotMine};
ghost use Rattle.machine_steps.specs.Programs.{IsRunnable};
ghost use Rattle.machine_steps.specs.Runs.{IsFormed};
ghost use Rattle.machine_steps.specs.Moves.{Moves};
ghost use Rattle.machine_steps.specs.Executing.{executes};
ghost use Rattle.machine_invocations.specs.Keeping.{Keeps};
ghost use Rattle.machine_basics.specs.Performed.{is_return};
ghost use Rattle.machine_basics.specs.Sparing.{NeedsMemory};

use crate::performing::{is_within, perform_running};
use crate::taking::take_or_restore;
use class_machine::meaning::Basic;
use class_world::World;
use machine_steps::Step;
use machine_values::{Ending, MachineState};
use std::alloc::AllocError;

fn is_return(basic: &Basic) -> bool
    ensures { result ≡ is_return basic.now }
{
    matches!(basic, Basic::Return(_))
}

/// What the instruction makes of the state, but for a return, which is left to be done and changes
/// nothing here (JVMS 6).
///
/// # Errors
/// Where there is no memory; the state stands for what it stood for then. An array of a type that is
/// not primitive, which no `newarray` of a class file names, is refused so too. It is never refused but
/// where executing the instruction makes an array, enters a monitor, or makes or throws an exception.
pub fn step_basic(
    state: &mut MachineState,
    world: &World,
    basic: &Basic,
) -> Result<Step, AllocError>
    requires runnable { IsRunnable world.now }
    requires formed { IsFormed world.now state.old }
    ensures formed { IsFormed world.now state.new }
    ensures left { is_return basic.now ≡ true → result ≡ Ok NotMine }
    ensures same { is_return basic.now ≡ true → state.new ≡ state.old }
    ensures moves { is_return basic.now ≡ false → IfOk result (λ step. Moves world.now state.old state.new step (executes (Do basic.now))) }
    ensures spared { OnErr result (NeedsMemory world.now state.old (Do basic.now)) }
    ensures err { OnErr result (Keeps world.now state.old state.new) }
{
    if is_return(basic) {
        return Ok(Step::NotMine);
    }
    if state.frames.is_empty() {
        return Ok(Step::Ended(Ending::Broken));
    }
    let effect = perform_running(state, basic);
    if !is_within(&effect, state.heap.count()) {
        return Ok(Step::Ended(Ending::Broken));
    }
    take_or_restore(state, world, effect)
}
