//! Methods that are to run.

ghost use Rattle.std.specs.Prelude.{◌≡◌, true, length, IfOk, OnErr};
ghost use Rattle.std.specs.List.{AllByRecursion};
ghost use Rattle.class_file.specs.Lookup.{reference_seen};
ghost use Rattle.class_machine.specs.Classes.{Method};
ghost use Rattle.machine_values.specs.Standing.{Settled};
ghost use Rattle.machine_values.specs.States.{is_known_object, is_known_purpose};
ghost use Rattle.machine_steps.specs.Programs.{IsRunnable};
ghost use Rattle.machine_steps.specs.Runs.{IsMethod, IsFormed, answers_left};
ghost use Rattle.machine_invocations.specs.Keeping.{Keeps, IsSame};
ghost use Rattle.machine_invocations.specs.Methods.{Sees};
ghost use Rattle.machine_invokes.specs.Preparing.{runs_call};
ghost use Rattle.machine_parts.specs.Lines.{StandsForOne};
ghost use Rattle.machine_calling.specs.Ran.{HasRoom, RanBy};

use crate::entering::enter_method;
use crate::natives::run_native;
use crate::ran::Ran;
use crate::ruling::run_rule;
use class_file::Reference;
use class_world::World;
use machine_invocations::{is_native, rule_of};
use machine_invokes::Invocation;
use machine_values::{MachineState, Script};
use std::alloc::AllocError;

/// Runs the method, which the reference names in the instruction, with its receiver and its arguments,
/// which are taken from the running frame already: a native method, a method of the library, or one
/// with code.
///
/// # Errors
/// Where there is no memory; the state and the script are as they were then.
pub(crate) fn run_method(
    state: &mut MachineState,
    world: &World,
    script: &mut Script,
    named: Reference<'_>,
    call: &Invocation,
) -> Result<Ran, AllocError>
    requires runnable { IsRunnable world.now }
    requires formed { IsFormed world.now state.old }
    requires method { IsMethod world.now call.now.method.0 }
    requires receiver { is_known_object (length state.old.heap.names) call.now.receiver ≡ true }
    requires arguments { AllByRecursion (Settled (length state.old.heap.names)) call.now.arguments.items }
    requires purpose { is_known_purpose (length state.old.heap.names) call.now.purpose ≡ true }
    requires there { StandsForOne world.now state.old }
    ensures formed { IsFormed world.now state.new }
    ensures ran { IfOk result (λ ran. (callee : Method) → Sees world.now call.now.method.0 callee → HasRoom world.now state.old (answers_left script.old) callee → RanBy world.now state.old state.new (answers_left script.old) (answers_left script.new) (runs_call (reference_seen named.entry) callee call.now state.old) ran) }
    ensures err { OnErr result (Keeps world.now state.old state.new) }
    ensures same { OnErr result (IsSame state.old state.new) }
    ensures script { OnErr result (script.new ≡ script.old) }
{
    if is_native(world, call.method) {
        return run_native(state, world, script, call);
    }
    match rule_of(world, call.method) {
        Some(rule) => run_rule(state, world, rule, call),
        None => {
            let step = enter_method(state, world, named, call)?;
            Ok(Ran::Done(step))
        }
    }
}
