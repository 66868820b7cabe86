//! Constants that are objects (JVMS 3.10.5, 5.4.3.1, 6, `ldc`).

ghost use Rattle.std.specs.Prelude.{◌≡◌, IfOk, OnErr};
ghost use Rattle.class_machine.specs.Operations.{Refer, ReferClass};
ghost use Rattle.class_machine.specs.Values.{Literal};
ghost use Rattle.machine_steps.specs.Executing.{executes};
ghost use Rattle.machine_steps.specs.Moves.{Moves};
ghost use Rattle.machine_steps.specs.Programs.{IsRunnable};
ghost use Rattle.machine_steps.specs.Runs.{IsFormed};

use crate::going::{give_new, give_next, has_room};
use crate::missing::missing_class;
use crate::named::is_known_class;
use crate::type_names::type_named;
use class_world::World;
use machine_requests::{class_object, literal};
use machine_steps::Step;
use machine_values::{Ending, MachineState, Value};
use std::alloc::AllocError;

/// Pushes the String of the literal of these units (JVMS 6, `ldc`).
///
/// # Errors
/// Where there is no memory; the state is as it was then.
pub fn refer(state: &mut MachineState, world: &World, units: &[u16]) -> Result<Step, AllocError>
    requires runnable { IsRunnable world.now }
    requires formed { IsFormed world.now state.old }
    ensures formed { IsFormed world.now state.new }
    ensures moves { IfOk result (λ step. Moves world.now state.old state.new step (executes (Refer (Literal units.now)))) }
    ensures err { OnErr result (state.new ≡ state.old) }
{
    let at = literal(&mut state.heap, units)?;
    Ok(give_next(state, world, Value::Reference(at)))
}

/// Pushes the object that stands for the class or array type (JVMS 6, `ldc`).
///
/// # Errors
/// Where there is no memory; the state is as it was then.
pub fn refer_class(
    state: &mut MachineState,
    world: &World,
    class: &[u8],
) -> Result<Step, AllocError>
    requires runnable { IsRunnable world.now }
    requires formed { IsFormed world.now state.old }
    ensures formed { IsFormed world.now state.new }
    ensures moves { IfOk result (λ step. Moves world.now state.old state.new step (executes (ReferClass class.now))) }
    ensures err { OnErr result (state.new ≡ state.old) }
{
    if !has_room(state) {
        return Ok(Step::Ended(Ending::Broken));
    }
    if !is_known_class(world, class) {
        return missing_class(state, class);
    }
    let named = type_named(*state.frames.allocator(), class)?;
    let reply = class_object(&mut state.heap, &named)?;
    Ok(give_new(state, world, reply))
}
