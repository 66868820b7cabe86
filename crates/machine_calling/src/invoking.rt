//! The invoke instructions, whole.

ghost use Rattle.std.specs.Prelude.{◌≡◌, ◌<◌, false, length, IfOk, OnErr};
ghost use Rattle.class_file.specs.Lookup.{reference_seen};
ghost use Rattle.class_machine.specs.declared.kinds.Mode.{Mode as ModeOf};
ghost use Rattle.class_machine.specs.Operations.{Invoke};
ghost use Rattle.machine_values.specs.declared.state.MachineState.{MachineState as StateOf};
ghost use Rattle.machine_steps.specs.Executing.{executes, MovesOver};
ghost use Rattle.machine_steps.specs.Programs.{IsRunnable};
ghost use Rattle.machine_steps.specs.Runs.{IsFormed, answers_left};
ghost use Rattle.machine_invocations.specs.Keeping.{Keeps, IsSame};
ghost use Rattle.machine_parts.specs.Lines.{StandsForOne};
ghost use Rattle.machine_invokes.specs.Preparing.{Prepares};
ghost use Rattle.machine_invokes.specs.Undoing.{CanUndo};
ghost use Rattle.machine_calling.specs.Carrying.{CarriesOut, IsPrepared, StaysFormed};
ghost use Rattle.machine_calling.specs.Ran.{is_done};

use crate::ran::Ran;
use crate::running::run_method;
use class_file::Reference;
use class_machine::kinds::Mode;
use class_world::World;
use machine_invokes::{Invocation, Prepared, prepare, restore_frame, undo};
use machine_natives::end_script;
use machine_steps::Step;
use machine_values::{MachineState, Script};
use std::alloc::AllocError;

// On, once the method ran. Where initialisers come first, the frame below them, which has the number
// `index`, gets back what the call took; where the script ends, the state is what it was before the
// instruction.
fn go_on(state: &mut MachineState, ran: Ran, call: Invocation, index: usize) -> Step
    requires there { is_done ran ≡ false → index < length state.old.frames.items }
    ensures moves { CarriesOut state.old state.new ran call index result }
    ensures formed { StaysFormed state.old state.new ran call index }
{
    match ran {
        Ran::Done(step) => step,
        Ran::Begins => {
            restore_frame(state, index, &call);
            Step::Went
        }
        Ran::Lacks(event) => {
            undo(state, call);
            end_script(state, event)
        }
    }
}

// Runs the method that was found, with what was taken for it.
fn run_prepared(
    state: &mut MachineState,
    world: &World,
    script: &mut Script,
    named: Reference<'_>,
    call: Invocation,
) -> Result<Step, AllocError>
    requires runnable { IsRunnable world.now }
    requires formed { IsFormed world.now state.old }
    requires prepared { IsPrepared world.now state.old (reference_seen named) call }
    ensures formed { (before : StateOf) → CanUndo before state.old call → IsFormed world.now before → IsFormed world.now state.new }
    ensures moves { IfOk result (λ step. (before : StateOf) (mode : ModeOf) → Prepares world.now before state.old mode (reference_seen named.entry) call → CanUndo before state.old call → MovesOver world.now before state.new (answers_left script.old) (answers_left script.new) step (executes (Invoke mode (reference_seen named.entry)))) }
    ensures err { OnErr result ((before : StateOf) → CanUndo before state.old call → IsSame before state.new) }
    ensures script { OnErr result (script.new ≡ script.old) }
{
    let index = state.frames.len() - 1;
    match run_method(state, world, script, named, &call) {
        Ok(ran) => Ok(go_on(state, ran, call, index)),
        Err(failed) => {
            undo(state, call);
            Err(failed)
        }
    }
}

/// An invoke instruction of the running frame (JVMS 6, `invokeinterface` to `invokevirtual`): the
/// method is found, initialisers come first where some are pending, and then it runs.
///
/// # Errors
/// Where there is no memory; the state stands for what it stood for then, and the script is as it was.
pub fn invoke(
    state: &mut MachineState,
    world: &World,
    script: &mut Script,
    mode: Mode,
    named: Reference<'_>,
) -> Result<Step, AllocError>
    requires runnable { IsRunnable world.now }
    requires formed { IsFormed world.now state.old }
    requires there { StandsForOne world.now state.old }
    ensures formed { IsFormed world.now state.new }
    ensures moves { IfOk result (λ step. MovesOver world.now state.old state.new (answers_left script.old) (answers_left script.new) step (executes (Invoke mode (reference_seen named.entry)))) }
    ensures err { OnErr result (Keeps world.now state.old state.new) }
    ensures script { OnErr result (script.new ≡ script.old) }
{
    match prepare(state, world, mode, named)? {
        Prepared::Done(step) => Ok(step),
        Prepared::Runs(call) => run_prepared(state, world, script, named, call),
    }
}
