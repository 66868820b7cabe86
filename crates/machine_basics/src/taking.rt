//! What becomes of a state by the effect that an instruction had on the running frame.

ghost use Rattle.std.specs.Prelude.{◌≡◌, ◌<◌, true, false, length, IfOk, OnErr};
ghost use Rattle.class_machine.specs.declared.meaning.Basic.{Basic as BasicOf};
ghost use Rattle.machine_values.specs.declared.state.MachineState.{MachineState as StateOf};
ghost use Rattle.machine_frames.specs.Effects.{is_effect_within};
ghost use Rattle.machine_frames.specs.Undoing.{is_plain};
ghost use Rattle.machine_steps.specs.Programs.{IsRunnable};
ghost use Rattle.machine_steps.specs.Runs.{IsFormed};
ghost use Rattle.machine_steps.specs.Moves.{Moves};
ghost use Rattle.machine_invocations.specs.Keeping.{Keeps};
ghost use Rattle.machine_basics.specs.Turns.{takes};
ghost use Rattle.machine_basics.specs.Performed.{IsPerformed};
ghost use Rattle.machine_basics.specs.Sparing.{TakesMemory};

use crate::going::{enter, go_next, jump};
use crate::performing::restore_running;
use crate::replies::ask;
use crate::throwing::throw;
use class_world::World;
use machine_frames::Effect;
use machine_steps::{Step, fail, go_on};
use machine_values::{Ending, MachineState};
use std::alloc::AllocError;

// What becomes of the running frame by the effect, which is no return.
fn take(state: &mut MachineState, world: &World, effect: Effect) -> Result<Step, AllocError>
    requires runnable { IsRunnable world.now }
    requires formed { IsFormed world.now state.old }
    requires known { is_effect_within (length state.old.heap.names) effect ≡ true }
    ensures formed { IsFormed world.now state.new }
    ensures moves { IfOk result (λ step. Moves world.now state.old state.new step (takes state.old effect)) }
    ensures plain { OnErr result (is_plain effect ≡ false) }
    ensures spared { OnErr result (TakesMemory world.now state.old effect) }
    ensures err { OnErr result (Keeps world.now state.old state.new) }
{
    match effect {
        Effect::On => Ok(go_next(state, world)),
        Effect::Jump(number) => Ok(jump(state, world, number)),
        Effect::Enter(number) => Ok(enter(state, world, number)),
        Effect::Back(pc) => Ok(go_on(state, world, pc)),
        Effect::Ask(request) => ask(state, world, request),
        Effect::Fail(fault) => fail(state, world, fault),
        Effect::Throw(object) => throw(state, world, object),
        Effect::Unmodelled(op) => Ok(Step::Ended(Ending::Unmodelled(op))),
        Effect::Leave(_) | Effect::Broken => Ok(Step::Ended(Ending::Broken)),
    }
}

/// What becomes of the running frame by the effect. Where the step is refused, the frame gets back what
/// the instruction took from it.
///
/// # Errors
/// Where there is no memory; the state stands then for what it stood for before the instruction. It is
/// never refused but where the effect makes an array, enters a monitor, or makes or throws an exception.
pub(crate) fn take_or_restore(
    state: &mut MachineState,
    world: &World,
    effect: Effect,
) -> Result<Step, AllocError>
    requires runnable { IsRunnable world.now }
    requires formed { IsFormed world.now state.old }
    requires some { 0 < length state.old.frames.items }
    requires known { is_effect_within (length state.old.heap.names) effect ≡ true }
    ensures formed { IfOk result (λ step. IsFormed world.now state.new) }
    ensures moves { IfOk result (λ step. Moves world.now state.old state.new step (takes state.old effect)) }
    ensures spared { OnErr result (TakesMemory world.now state.old effect) }
    ensures err { OnErr result ((before : StateOf) (basic : BasicOf) → IsPerformed before state.old basic effect → Keeps world.now before state.new) }
{
    match take(state, world, effect) {
        Ok(step) => Ok(step),
        Err(failed) => {
            restore_running(state, &effect);
            Err(failed)
        }
    }
}
