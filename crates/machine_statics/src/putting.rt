//! Static fields are stored to (JVMS 6, `putstatic`).

ghost use Rattle.std.specs.Prelude.{◌≡◌, ◌<◌, ◌⊎◌, length, MatchOption, IfOk, OnErr};
ghost use Rattle.class_file.specs.Pool.{Reference as ReferenceOf};
ghost use Rattle.class_file.specs.Lookup.{reference_seen};
ghost use Rattle.class_machine.specs.declared.kinds.Access.TheVariants as access;
ghost use Rattle.class_machine.specs.Operations.{FieldAccess};
ghost use Rattle.machine_steps.specs.Executing.{executes};
ghost use Rattle.machine_steps.specs.Moves.{Moves};
ghost use Rattle.machine_steps.specs.Programs.{IsRunnable};
ghost use Rattle.machine_steps.specs.Runs.{IsFormed};
ghost use Rattle.machine_invocations.specs.Keeping.{Keeps};
ghost use Rattle.machine_statics.specs.StaticFields.{Stores};
ghost use Rattle.machine_statics.specs.Tops.{IsIdle, LacksTop, TakesTop};
ghost use Rattle.machine_statics.specs.Triggers.{MovesWhere, takes};

use crate::fields::find_static;
use crate::operands::has_value;
use aj_names::FieldId;
use class_file::Reference;
use class_machine::kinds::{Element, Kind};
use class_world::World;
use machine_code::kind_in;
use machine_fields::element_of;
use machine_invocations::{begin, member_text, take_back};
use machine_steps::Step;
use machine_values::{Ending, MachineState, Value};
use std::alloc::AllocError;

// The value of the kind on top of the running frame's operands, taken from them.
fn take_value(state: &mut MachineState, kind: Kind) -> Option<Value>
    ensures { MatchOption result (IsIdle state.old state.new ⊎ LacksTop state.old kind state.new) (λ v. TakesTop state.old kind state.new v) }
{
    let count = state.frames.len();
    if count < 1 {
        return None;
    }
    let top = count - 1;
    machine_frames::put_static(&mut state.frames[top], kind)
}

// The field gets the value of the kind on top, and the running frame goes on behind the instruction.
fn store(
    state: &mut MachineState,
    world: &World,
    field: FieldId,
    element: Element,
    kind: Kind,
) -> Step
    requires runnable { IsRunnable world.now }
    requires formed { IsFormed world.now state.old }
    requires field { field.0 < length state.old.statics }
    ensures formed { IsFormed world.now state.new }
    ensures moves { (r : ReferenceOf) → MovesWhere world.now (Stores r field.0 element kind (length state.old.statics)) state.old state.new result (takes (FieldAccess access.PutStatic r)) }
{
    let Some(value) = take_value(state, kind) else {
        return Step::Ended(Ending::Broken);
    };
    let _done = machine_requests::put_static(&mut state.statics, field, element, value);
    take_back(state, world, false, None)
}

/// The value on top goes into a static field, once its class is initialised (JVMS 6, `putstatic`).
///
/// # Errors
/// Where there is no memory; the state stands for what it stood for then.
pub fn put_static(
    state: &mut MachineState,
    world: &World,
    field: Reference<'_>,
) -> Result<Step, AllocError>
    requires runnable { IsRunnable world.now }
    requires formed { IsFormed world.now state.old }
    ensures formed { IsFormed world.now state.new }
    ensures moves { IfOk result (λ step. Moves world.now state.old state.new step (executes (FieldAccess access.PutStatic (reference_seen field.entry)))) }
    ensures err { OnErr result (Keeps world.now state.old state.new) }
{
    let kind = kind_in(field.member.descriptor);
    if !has_value(state, kind) {
        return Ok(Step::Ended(Ending::Broken));
    }
    let Some(found) = find_static(world, field) else {
        let alloc = *state.frames.allocator();
        let name = member_text(alloc, field.class, field.member.name)?;
        return Ok(Step::Ended(Ending::Unresolved(name)));
    };
    let pending = begin(state, world, found.class)?;
    if pending {
        return Ok(Step::Went);
    }
    let element = element_of(field.member.descriptor);
    Ok(store(state, world, found.id, element, kind))
}
