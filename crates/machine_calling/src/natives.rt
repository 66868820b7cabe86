//! Native methods that are to run.

ghost use Rattle.std.specs.Prelude.{◌≡◌, true, length, IfOk, OnErr};
ghost use Rattle.std.specs.List.{AllByRecursion};
ghost use Rattle.class_file.specs.Pool.{Reference as Named};
ghost use Rattle.class_machine.specs.Classes.{Method};
ghost use Rattle.machine_values.specs.Standing.{Settled};
ghost use Rattle.machine_values.specs.States.{is_known_object, machine_purpose};
ghost use Rattle.machine_steps.specs.Programs.{IsRunnable};
ghost use Rattle.machine_steps.specs.Runs.{IsMethod, IsFormed, answers_left};
ghost use Rattle.machine_invocations.specs.Methods.{Sees};
ghost use Rattle.machine_invokes.specs.Preparing.{runs_call};
ghost use Rattle.machine_calling.specs.Ran.{constructs, HasRoom, RanBy};

use crate::ran::Ran;
use class_world::World;
use machine_invokes::Invocation;
use machine_natives::{Called, call_native};
use machine_values::{MachineState, Purpose, Script};
use std::alloc::AllocError;

/// Whether the call is a this or super call of a constructor.
pub(crate) fn constructs(purpose: Purpose) -> bool
    ensures { result ≡ constructs purpose }
{
    matches!(purpose, Purpose::Constructs)
}

/// Calls the native method.
///
/// # Errors
/// Where there is no memory; the state and the script are as they were then.
pub(crate) fn run_native(
    state: &mut MachineState,
    world: &World,
    script: &mut Script,
    call: &Invocation,
) -> Result<Ran, AllocError>
    requires runnable { IsRunnable world.now }
    requires formed { IsFormed world.now state.old }
    requires method { IsMethod world.now call.now.method.0 }
    requires receiver { is_known_object (length state.old.heap.names) call.now.receiver ≡ true }
    requires arguments { AllByRecursion (Settled (length state.old.heap.names)) call.now.arguments.items }
    ensures formed { IsFormed world.now state.new }
    ensures ran { IfOk result (λ ran. (callee : Method) (r : Named) → Sees world.now call.now.method.0 callee → callee.is_native ≡ true → HasRoom world.now state.old (answers_left script.old) callee → RanBy world.now state.old state.new (answers_left script.old) (answers_left script.new) (runs_call r callee call.now state.old) ran) }
    ensures err { OnErr result (state.new ≡ state.old) }
    ensures script { OnErr result (script.new ≡ script.old) }
{
    let called = call_native(
        state,
        world,
        script,
        call.method,
        call.receiver,
        call.arguments.as_slice(),
        constructs(call.purpose),
    )?;
    match called {
        Called::Done(step) => Ok(Ran::Done(step)),
        Called::Lacks(event) => Ok(Ran::Lacks(event)),
    }
}
