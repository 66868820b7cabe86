//! Static fields are read (JVMS 6, `getstatic`).

ghost use Rattle.std.specs.Prelude.{◌≡◌, ◌<◌, length, IfOk, OnErr};
ghost use Rattle.class_file.specs.Pool.{Reference as ReferenceOf};
ghost use Rattle.class_file.specs.Lookup.{reference_seen};
ghost use Rattle.class_machine.specs.declared.kinds.Access.TheVariants as access;
ghost use Rattle.class_machine.specs.Operations.{FieldAccess};
ghost use Rattle.machine_steps.specs.Executing.{executes};
ghost use Rattle.machine_steps.specs.Moves.{Moves};
ghost use Rattle.machine_steps.specs.Programs.{IsRunnable};
ghost use Rattle.machine_steps.specs.Runs.{IsFormed};
ghost use Rattle.machine_invocations.specs.Keeping.{Keeps};
ghost use Rattle.machine_statics.specs.StaticFields.{Reads};
ghost use Rattle.machine_statics.specs.Triggers.{MovesWhere, takes};

use crate::fields::find_static;
use crate::operands::{has_room, is_settled};
use crate::output::find_output;
use aj_names::FieldId;
use class_file::Reference;
use class_machine::kinds::Element;
use class_world::World;
use machine_code::kind_in;
use machine_fields::{element_of, initial_value};
use machine_invocations::{begin, member_text, take_back};
use machine_requests::Reply;
use machine_steps::Step;
use machine_values::{Ending, MachineState, Value};
use std::alloc::AllocError;

// The running frame goes on behind the instruction, with what the field holds on top.
fn read(
    state: &mut MachineState,
    world: &World,
    field: FieldId,
    element: Element,
    initial: Value,
) -> Step
    requires runnable { IsRunnable world.now }
    requires formed { IsFormed world.now state.old }
    requires field { field.0 < length state.old.statics }
    ensures formed { IsFormed world.now state.new }
    ensures moves { (r : ReferenceOf) → MovesWhere world.now (Reads r field.0 element state.old.heap initial) state.old state.new result (takes (FieldAccess access.GetStatic r)) }
{
    let reply = machine_requests::get_static(&state.statics, field, element, initial);
    match reply {
        Reply::Gives(value) => {
            if is_settled(&state.heap, value) {
                take_back(state, world, false, Some(value))
            } else {
                Step::Ended(Ending::Broken)
            }
        }
        _ => Step::Ended(Ending::Broken),
    }
}

/// The value of a static field goes on top, once its class is initialised (JVMS 6, `getstatic`).
///
/// # Errors
/// Where there is no memory, and where the heap lacks the object of `System.out`; the state stands for
/// what it stood for then.
pub fn get_static(
    state: &mut MachineState,
    world: &World,
    field: Reference<'_>,
) -> Result<Step, AllocError>
    requires runnable { IsRunnable world.now }
    requires formed { IsFormed world.now state.old }
    ensures formed { IsFormed world.now state.new }
    ensures moves { IfOk result (λ step. Moves world.now state.old state.new step (executes (FieldAccess access.GetStatic (reference_seen field.entry)))) }
    ensures err { OnErr result (Keeps world.now state.old state.new) }
{
    if !has_room(state, kind_in(field.member.descriptor)) {
        return Ok(Step::Ended(Ending::Broken));
    }
    let alloc = *state.frames.allocator();
    let Some(found) = find_static(world, field) else {
        let name = member_text(alloc, field.class, field.member.name)?;
        return Ok(Step::Ended(Ending::Unresolved(name)));
    };
    let Some(output) = find_output(world, &state.heap) else {
        return Err(AllocError);
    };
    let initial = initial_value(
        alloc,
        world,
        &mut state.heap,
        found.class,
        found.position,
        output,
    )?;
    let pending = begin(state, world, found.class)?;
    if pending {
        return Ok(Step::Went);
    }
    let element = element_of(field.member.descriptor);
    Ok(read(state, world, found.id, element, initial))
}
