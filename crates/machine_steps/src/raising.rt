//! Exceptions leave frames until one takes them (JVMS 3.10).

ghost use Rattle.std.specs.Prelude.{◌≡◌, ◌<◌, ℕ, true, false, length, is_some, slice_get, IfOk, OnErr};
ghost use Rattle.class_heads.specs.Hierarchy.{name_at, place_of};
ghost use Rattle.class_machine.specs.Values.{class_of};
ghost use Rattle.machine_values.specs.Standing.{name_of};
ghost use Rattle.machine_steps.specs.Programs.{IsRunnable};
ghost use Rattle.machine_steps.specs.Runs.{IsFormed};
ghost use Rattle.machine_steps.specs.Moves.{MovesWithLocals, faults, raises};
ghost use Rattle.machine_steps.specs.Ends.{ends};
ghost use Rattle.machine_steps.specs.Unwinding.{Catches, Unwinds};

use crate::faults::fault_class;
use crate::going::give;
use crate::leaving::{empty, leave_above};
use crate::messages::message_of;
use crate::running::class_name;
use crate::step::Step;
use crate::unwinding::{Way, way_of};
use aj_names::{ClassId, InternalName};
use class_machine::kinds::Fault;
use class_world::World;
use machine_fields::{class_at, make_object};
use machine_values::{Ending, MachineState, Ref, Value};
use std::alloc::AllocError;

// The frame of that number takes the exception at the place, with no other operand.
fn catch_in(state: &mut MachineState, world: &World, index: usize, pc: u32, x: Ref) -> Step
    requires runnable { IsRunnable world.now }
    requires formed { IsFormed world.now state.old }
    requires there { index < length state.old.frames.items }
    requires known { x.0 < length state.old.heap.names }
    ensures formed { IsFormed world.now state.new }
    ensures going { ends result ≡ false }
    ensures caught { (class : ℕ) → Catches world.now class state.old.frames.items index pc → Unwinds world.now state.old state.new result class x }
{
    leave_above(state, index + 1);
    empty(&mut state.frames[index].operands);
    give(state, world, Value::Reference(x), pc)
}

// The name of the class, in memory of its own.
fn name_copy(
    state: &MachineState,
    world: &World,
    class: ClassId,
) -> Result<InternalName, AllocError>
    ensures { IfOk result (λ name. name ≡ name_at world.now.heads class.0) }
{
    InternalName::from_slice(*state.frames.allocator(), class_name(world, class))
}

/// The machine makes an exception and throws it (JVMS 2.16.4, 3.10). An ending's texts are prepared
/// before a frame is left: where the run ends the state is as it was.
///
/// # Errors
/// Where there is no memory; the state is as it was then.
pub fn fail(state: &mut MachineState, world: &World, fault: Fault) -> Result<Step, AllocError>
    requires runnable { IsRunnable world.now }
    requires formed { IsFormed world.now state.old }
    ensures formed { IsFormed world.now state.new }
    ensures moves { IfOk result (λ step. MovesWithLocals world.now state.old state.new step (faults fault)) }
    ensures kept { IfOk result (λ step. ends step ≡ true → state.new ≡ state.old) }
    ensures err { OnErr result (state.new ≡ state.old) }
{
    let class = fault_class(world, fault);
    match way_of(state, world, class) {
        Way::Caught(index, pc) => {
            let alloc = *state.frames.allocator();
            let x = make_object(alloc, &mut state.heap, world, class)?;
            Ok(catch_in(state, world, index, pc, x))
        }
        Way::Fails(failed) => {
            let name = name_copy(state, world, failed)?;
            Ok(Step::Ended(Ending::InitFailed(name)))
        }
        Way::Leaves => {
            let name = name_copy(state, world, class)?;
            Ok(Step::Ended(Ending::Uncaught(name, None)))
        }
    }
}

/// Throws the object, whose class the world has (JVMS 3.10, 6, `athrow`). Where the run ends the state
/// is as it was.
///
/// # Errors
/// Where there is no memory; the state is as it was then.
pub fn raise(state: &mut MachineState, world: &World, x: Ref) -> Result<Step, AllocError>
    requires runnable { IsRunnable world.now }
    requires formed { IsFormed world.now state.old }
    requires known { x.0 < length state.old.heap.names }
    requires class { is_some (place_of world.now.heads (class_of (name_of world.now.heads state.old.heap.names x))) ≡ true }
    ensures formed { IsFormed world.now state.new }
    ensures moves { IfOk result (λ step. MovesWithLocals world.now state.old state.new step (raises (λ m. name_of m.setting.heads state.old.heap.names x))) }
    ensures kept { IfOk result (λ step. ends step ≡ true → state.new ≡ state.old) }
    ensures err { OnErr result (state.new ≡ state.old) }
{
    let Some(class) = class_at(world, &state.heap, x) else {
        return Ok(Step::Ended(Ending::Broken));
    };
    match way_of(state, world, class) {
        Way::Caught(index, pc) => Ok(catch_in(state, world, index, pc, x)),
        Way::Fails(failed) => {
            let name = name_copy(state, world, failed)?;
            Ok(Step::Ended(Ending::InitFailed(name)))
        }
        Way::Leaves => {
            let name = name_copy(state, world, class)?;
            let message = message_of(state, world, class, x)?;
            Ok(Step::Ended(Ending::Uncaught(name, message)))
        }
    }
}
