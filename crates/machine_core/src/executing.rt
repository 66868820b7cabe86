//! Instructions by their semantic forms (JVMS 6). What the pool doesn't name is no instruction: the
//! steps here leave it.

ghost use Rattle.std.specs.Prelude.{◌≡◌, true, IfOk, OnErr};
ghost use Rattle.machine_steps.specs.Programs.{IsRunnable};
ghost use Rattle.machine_steps.specs.Runs.{IsFormed};
ghost use Rattle.machine_invocations.specs.Keeping.{Keeps};
ghost use Rattle.machine_core.specs.Taking.{is_of_object, is_core_form, TakesCore};
ghost use Rattle.machine_core.specs.ClassForms.{on_class};
ghost use Rattle.machine_core.specs.Sparing.{MayNeedBy};

use class_file::{PoolEntry, class_at, field_at, string_at};
use class_machine::kinds::Access;
use class_world::World;
use machine_arrays::step_new_arrays;
use machine_basics::step_basic;
use machine_code::Operation;
use machine_fields::units_of;
use machine_objects::{
    check_cast, get_field, instance_of, new_reference_array, put_field, refer, refer_class, switch,
};
use machine_steps::Step;
use machine_values::MachineState;
use std::alloc::AllocError;

/// An instruction that names a class or array type and initialises none.
#[derive(Clone, Copy)]
enum ClassForm {
    /// `ldc` of a class or array type.
    Refer,
    NewReferenceArray,
    /// `multianewarray`, with how many dimensions are made.
    NewArrays(u8),
    CheckCast,
    InstanceOf,
}

// The field of an object is read or written. A static one is left.
fn access_field(
    state: &mut MachineState,
    world: &World,
    pool: &[PoolEntry],
    access: Access,
    index: u16,
) -> Result<Step, AllocError>
    requires runnable { IsRunnable world.now }
    requires formed { IsFormed world.now state.old }
    ensures formed { IsFormed world.now state.new }
    ensures takes { IfOk result (λ step. TakesCore world.now state.old state.new step pool.now (Operation.FieldAccess access index)) }
    ensures own { OnErr result (is_of_object access ≡ true) }
    ensures err { OnErr result (state.new ≡ state.old) }
{
    let Some(field) = field_at(pool, index) else {
        return Ok(Step::NotMine);
    };
    match access {
        Access::GetField => get_field(state, world, field),
        Access::PutField => put_field(state, world, field),
        Access::GetStatic | Access::PutStatic => Ok(Step::NotMine),
    }
}

// The String of the literal is pushed.
fn refer_to(
    state: &mut MachineState,
    world: &World,
    pool: &[PoolEntry],
    index: u16,
) -> Result<Step, AllocError>
    requires runnable { IsRunnable world.now }
    requires formed { IsFormed world.now state.old }
    ensures formed { IsFormed world.now state.new }
    ensures takes { IfOk result (λ step. TakesCore world.now state.old state.new step pool.now (Operation.Refer index)) }
    ensures err { OnErr result (state.new ≡ state.old) }
{
    let Some(text) = string_at(pool, index) else {
        return Ok(Step::NotMine);
    };
    let units = units_of(*state.frames.allocator(), text)?;
    refer(state, world, units.as_slice())
}

// The instruction is executed on the class or array type.
fn execute_on_class(
    state: &mut MachineState,
    world: &World,
    pool: &[PoolEntry],
    index: u16,
    form: ClassForm,
) -> Result<Step, AllocError>
    requires runnable { IsRunnable world.now }
    requires formed { IsFormed world.now state.old }
    ensures formed { IsFormed world.now state.new }
    ensures takes { IfOk result (λ step. TakesCore world.now state.old state.new step pool.now (on_class form index)) }
    ensures err { OnErr result (state.new ≡ state.old) }
{
    let Some(class) = class_at(pool, index) else {
        return Ok(Step::NotMine);
    };
    match form {
        ClassForm::Refer => refer_class(state, world, class),
        ClassForm::NewReferenceArray => new_reference_array(state, world, class),
        ClassForm::NewArrays(dims) => step_new_arrays(state, world, class, dims),
        ClassForm::CheckCast => check_cast(state, world, class),
        ClassForm::InstanceOf => instance_of(state, world, class),
    }
}

/// Executes the core's instruction, and leaves any other one.
///
/// # Errors
/// Where there is no memory; the state stands for what it stood for then. What names nothing in the
/// constant pool is never refused but where it makes an array, enters a monitor, or makes or throws an
/// exception, and a switch is never refused.
pub(crate) fn execute(
    state: &mut MachineState,
    world: &World,
    pool: &[PoolEntry],
    operation: Operation,
) -> Result<Step, AllocError>
    requires runnable { IsRunnable world.now }
    requires formed { IsFormed world.now state.old }
    ensures formed { IsFormed world.now state.new }
    ensures takes { IfOk result (λ step. TakesCore world.now state.old state.new step pool.now operation) }
    ensures own { OnErr result (is_core_form operation ≡ true) }
    ensures spared { OnErr result (MayNeedBy world.now state.old pool.now operation) }
    ensures err { OnErr result (Keeps world.now state.old state.new) }
{
    match operation {
        Operation::Do(basic) => step_basic(state, world, &basic),
        Operation::Switch(_) => Ok(switch(state, world)),
        Operation::Refer(index) => refer_to(state, world, pool, index),
        Operation::ReferClass(index) => {
            execute_on_class(state, world, pool, index, ClassForm::Refer)
        }
        Operation::FieldAccess(access, index) => access_field(state, world, pool, access, index),
        Operation::Invoke(_, _) | Operation::New(_) => Ok(Step::NotMine),
        Operation::NewReferenceArray(index) => {
            execute_on_class(state, world, pool, index, ClassForm::NewReferenceArray)
        }
        Operation::NewArrays(index, dims) => {
            execute_on_class(state, world, pool, index, ClassForm::NewArrays(dims))
        }
        Operation::CheckCast(index) => {
            execute_on_class(state, world, pool, index, ClassForm::CheckCast)
        }
        Operation::InstanceOf(index) => {
            execute_on_class(state, world, pool, index, ClassForm::InstanceOf)
        }
    }
}
