//! Casts and tests of types (JVMS 5.4.3.1, 6, `checkcast` and `instanceof`).

ghost use Rattle.std.specs.Prelude.{◌≡◌, ◌&&◌, not, is_some, length, true, IfOk, OnErr};
ghost use Rattle.class_machine.specs.Operations.{CheckCast, InstanceOf};
ghost use Rattle.machine_values.specs.States.{is_known_object};
ghost use Rattle.machine_steps.specs.Executing.{executes};
ghost use Rattle.machine_steps.specs.Moves.{Moves};
ghost use Rattle.machine_steps.specs.Programs.{IsRunnable};
ghost use Rattle.machine_steps.specs.Runs.{IsFormed};
ghost use Rattle.machine_invocations.specs.Methods.{classes_in};
ghost use Rattle.machine_objects.specs.Types.{TellsType};

use crate::going::follow;
use crate::missing::missing_class;
use crate::named::is_known_class;
use crate::taking::{reference_value, restore, take_object};
use class_world::World;
use machine_fields::is_object_below;
use machine_requests::{cast, is_instance};
use machine_steps::Step;
use machine_values::{Ending, Heap, MachineState, Ref};
use std::alloc::AllocError;

// Whether the object, if it isn't null, is one of the class or array type.
fn is_of(world: &World, heap: &Heap, object: Option<Ref>, class: &[u8]) -> bool
    requires { is_known_object (length heap.now.names) object ≡ true }
    ensures { TellsType world.now heap.now object class.now result }
{
    match object {
        Some(at) => is_object_below(world, heap, at, class),
        None => true,
    }
}

// Whether the object isn't null, and there is no such class or array type.
fn lacks_class(world: &World, object: Option<Ref>, class: &[u8]) -> bool
    requires { IsRunnable world.now }
    ensures { result ≡ (is_some object && not ((classes_in world.now).knows class.now)) }
{
    match object {
        Some(_at) => !is_known_class(world, class),
        None => false,
    }
}

/// Casts the object on top to the class or array type (JVMS 6, `checkcast`).
///
/// # Errors
/// Where there is no memory; the state is as it was then.
pub fn check_cast(state: &mut MachineState, world: &World, class: &[u8]) -> Result<Step, AllocError>
    requires runnable { IsRunnable world.now }
    requires formed { IsFormed world.now state.old }
    ensures formed { IsFormed world.now state.new }
    ensures moves { IfOk result (λ step. Moves world.now state.old state.new step (executes (CheckCast class.now))) }
    ensures err { OnErr result (state.new ≡ state.old) }
{
    let Some(object) = take_object(state) else {
        return Ok(Step::Ended(Ending::Broken));
    };
    let taken = [reference_value(object)];
    if lacks_class(world, object, class) {
        restore(state, &taken);
        return missing_class(state, class);
    }
    let below = is_of(world, &state.heap, object, class);
    follow(state, world, cast(object, below), &taken)
}

/// Tests whether the object on top is one of the class or array type (JVMS 6, `instanceof`).
///
/// # Errors
/// Where there is no memory; the state is as it was then.
pub fn instance_of(
    state: &mut MachineState,
    world: &World,
    class: &[u8],
) -> Result<Step, AllocError>
    requires runnable { IsRunnable world.now }
    requires formed { IsFormed world.now state.old }
    ensures formed { IsFormed world.now state.new }
    ensures moves { IfOk result (λ step. Moves world.now state.old state.new step (executes (InstanceOf class.now))) }
    ensures err { OnErr result (state.new ≡ state.old) }
{
    let Some(object) = take_object(state) else {
        return Ok(Step::Ended(Ending::Broken));
    };
    let taken = [reference_value(object)];
    if lacks_class(world, object, class) {
        restore(state, &taken);
        return missing_class(state, class);
    }
    let below = is_of(world, &state.heap, object, class);
    follow(state, world, is_instance(object, below), &taken)
}
