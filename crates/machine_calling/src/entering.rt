//! Methods that get a frame.

ghost use Rattle.std.specs.Prelude.{◌≡◌, List, None, true, false, length, IfOk, OnErr};
ghost use Rattle.std.specs.List.{AllByRecursion};
ghost use Rattle.class_file.specs.Lookup.{reference_seen};
ghost use Rattle.class_machine.specs.Classes.{Method};
ghost use Rattle.machine_values.specs.declared.script.Answer.{Answer as AnswerOf};
ghost use Rattle.machine_values.specs.Standing.{Settled};
ghost use Rattle.machine_values.specs.States.{is_known_object, is_known_purpose};
ghost use Rattle.machine_steps.specs.Programs.{IsRunnable};
ghost use Rattle.machine_steps.specs.Runs.{IsMethod, IsFormed};
ghost use Rattle.machine_invocations.specs.Keeping.{Keeps, IsSame};
ghost use Rattle.machine_invocations.specs.Methods.{Sees};
ghost use Rattle.machine_natives.specs.Calls.{values_given};
ghost use Rattle.machine_invokes.specs.Preparing.{runs_call};
ghost use Rattle.machine_calling.specs.Ran.{Goes};

use class_file::Reference;
use class_world::World;
use machine_invocations::enter;
use machine_invokes::Invocation;
use machine_steps::Step;
use machine_values::{MachineState, Ref, Value};
use std::alloc::{AllocError, Global};

// The receiver, if there is one, and the arguments.
fn values_of(
    alloc: Global,
    receiver: Option<Ref>,
    arguments: &[Value],
) -> Result<Vec<Value>, AllocError>
    ensures { IfOk result (λ values. values.items ≡ values_given receiver arguments.now) }
{
    let mut values = Vec::new(alloc);
    if let Some(at) = receiver {
        values.push(Value::Reference(at))?;
    }
    values.extend_from_slice(arguments)?;
    Ok(values)
}

/// The method, which isn't native and has no rule, gets a frame (JVMS 3.6).
///
/// # Errors
/// Where there is no memory; the state is as it was then.
pub(crate) fn enter_method(
    state: &mut MachineState,
    world: &World,
    named: Reference<'_>,
    call: &Invocation,
) -> Result<Step, AllocError>
    requires runnable { IsRunnable world.now }
    requires formed { IsFormed world.now state.old }
    requires method { IsMethod world.now call.now.method.0 }
    requires receiver { is_known_object (length state.old.heap.names) call.now.receiver ≡ true }
    requires arguments { AllByRecursion (Settled (length state.old.heap.names)) call.now.arguments.items }
    requires purpose { is_known_purpose (length state.old.heap.names) call.now.purpose ≡ true }
    ensures formed { IsFormed world.now state.new }
    ensures goes { IfOk result (λ step. (left : List AnswerOf) (callee : Method) → Sees world.now call.now.method.0 callee → callee.is_native ≡ false → callee.rule ≡ None → Goes world.now state.old state.new left left step (runs_call (reference_seen named.entry) callee call.now state.old)) }
    ensures err { OnErr result (Keeps world.now state.old state.new) }
    ensures same { OnErr result (IsSame state.old state.new) }
{
    let alloc = *state.frames.allocator();
    let values = values_of(alloc, call.receiver, call.arguments.as_slice())?;
    enter(
        state,
        world,
        named,
        call.method,
        call.receiver,
        values.as_slice(),
        call.purpose,
    )
}
