//! Fields of objects (JVMS 5.4.3.2, 6, `getfield` and `putfield`).

ghost use Rattle.std.specs.Prelude.{◌≡◌, IfOk, OnErr};
ghost use Rattle.class_file.specs.Lookup.{reference_seen};
ghost use Rattle.class_machine.specs.declared.kinds.Access.TheVariants as Access;
ghost use Rattle.class_machine.specs.Operations.{FieldAccess};
ghost use Rattle.machine_steps.specs.Executing.{executes};
ghost use Rattle.machine_steps.specs.Moves.{Moves};
ghost use Rattle.machine_steps.specs.Programs.{IsRunnable};
ghost use Rattle.machine_steps.specs.Runs.{IsFormed};

use crate::going::{follow, go_on_next};
use crate::missing::missing_member;
use crate::named::instance_field;
use crate::reading::{read, write};
use crate::taking::{reference_value, restore, take_holder, take_written};
use class_file::Reference;
use class_machine::kinds::Fault;
use class_world::World;
use machine_code::kind_in;
use machine_steps::{Step, fail};
use machine_values::{Ending, MachineState};
use std::alloc::AllocError;

/// Reads the field of the object on top (JVMS 6, `getfield`).
///
/// # Errors
/// Where there is no memory; the state is as it was then.
pub fn get_field(
    state: &mut MachineState,
    world: &World,
    field: Reference<'_>,
) -> Result<Step, AllocError>
    requires runnable { IsRunnable world.now }
    requires formed { IsFormed world.now state.old }
    ensures formed { IsFormed world.now state.new }
    ensures moves { IfOk result (λ step. Moves world.now state.old state.new step (executes (FieldAccess Access.GetField (reference_seen field.entry)))) }
    ensures err { OnErr result (state.new ≡ state.old) }
{
    let kind = kind_in(field.member.descriptor);
    let Some(object) = take_holder(state, kind) else {
        return Ok(Step::Ended(Ending::Broken));
    };
    let taken = [reference_value(object)];
    let Some(found) = instance_field(world, field) else {
        restore(state, &taken);
        return missing_member(state, field);
    };
    let reply = read(world, &state.heap, found, object);
    follow(state, world, reply, &taken)
}

/// Gives the field of an object the value on top (JVMS 6, `putfield`). Where objects of the class have
/// no such field, as one that an interface declares, nothing is written.
///
/// # Errors
/// Where there is no memory; the state is as it was then.
pub fn put_field(
    state: &mut MachineState,
    world: &World,
    field: Reference<'_>,
) -> Result<Step, AllocError>
    requires runnable { IsRunnable world.now }
    requires formed { IsFormed world.now state.old }
    ensures formed { IsFormed world.now state.new }
    ensures moves { IfOk result (λ step. Moves world.now state.old state.new step (executes (FieldAccess Access.PutField (reference_seen field.entry)))) }
    ensures err { OnErr result (state.new ≡ state.old) }
{
    let descriptor = field.member.descriptor;
    let Some(written) = take_written(state, kind_in(descriptor)) else {
        return Ok(Step::Ended(Ending::Broken));
    };
    let taken = [reference_value(written.object), written.value];
    let Some(found) = instance_field(world, field) else {
        restore(state, &taken);
        return missing_member(state, field);
    };
    let Some(at) = written.object else {
        restore(state, &taken);
        return fail(state, world, Fault::NullPointer);
    };
    if write(world, &mut state.heap, found, descriptor, at, written.value) {
        Ok(go_on_next(state, world))
    } else {
        Ok(Step::Ended(Ending::Broken))
    }
}
