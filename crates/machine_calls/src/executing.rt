//! Instructions by their semantic forms (JVMS 6). What the pool doesn't name is no instruction: the
//! steps here leave it.

ghost use Rattle.std.specs.Prelude.{◌≡◌, List, IfOk, OnErr};
ghost use Rattle.class_machine.specs.Operations.{Do};
ghost use Rattle.machine_values.specs.declared.script.Answer.{Answer};
ghost use Rattle.machine_steps.specs.Parts.{Part};
ghost use Rattle.machine_steps.specs.Programs.{IsRunnable};
ghost use Rattle.machine_steps.specs.Runs.{IsFormed, answers_left};
ghost use Rattle.machine_invocations.specs.Keeping.{Keeps};
ghost use Rattle.machine_parts.specs.Lines.{StandsForOne, TakesLine, TakesForm};

use class_file::{PoolEntry, class_at, field_at};
use class_machine::kinds::{Access, Mode};
use class_machine::meaning::Basic;
use class_world::World;
use machine_calling::invoke;
use machine_code::{Operation, invoked};
use machine_invokes::is_library_call;
use machine_statics::{get_static, new_object, put_static, step_return};
use machine_steps::Step;
use machine_values::{MachineState, Script};
use std::alloc::AllocError;

// A return is executed, unless it goes to a call of the library.
fn execute_basic(state: &mut MachineState, world: &World, basic: Basic) -> Result<Step, AllocError>
    requires runnable { IsRunnable world.now }
    requires formed { IsFormed world.now state.old }
    ensures formed { IsFormed world.now state.new }
    ensures takes { IfOk result (λ step. (left : List Answer) → TakesLine Part.Calls world.now state.old state.new left left step (Do basic)) }
    ensures err { OnErr result (Keeps world.now state.old state.new) }
{
    match basic {
        Basic::Return(kind) => step_return(state, world, kind),
        _ => Ok(Step::NotMine),
    }
}

// A static field is read or written. One of an object is left.
fn access_field(
    state: &mut MachineState,
    world: &World,
    pool: &[PoolEntry],
    access: Access,
    index: u16,
) -> Result<Step, AllocError>
    requires runnable { IsRunnable world.now }
    requires formed { IsFormed world.now state.old }
    ensures formed { IsFormed world.now state.new }
    ensures takes { IfOk result (λ step. (left : List Answer) → TakesForm Part.Calls world.now state.old state.new left left step pool.now (Operation.FieldAccess access index)) }
    ensures err { OnErr result (Keeps world.now state.old state.new) }
{
    let Some(field) = field_at(pool, index) else {
        return Ok(Step::NotMine);
    };
    match access {
        Access::GetStatic => get_static(state, world, field),
        Access::PutStatic => put_static(state, world, field),
        Access::GetField | Access::PutField => Ok(Step::NotMine),
    }
}

// An object of the class is announced.
fn announce(
    state: &mut MachineState,
    world: &World,
    pool: &[PoolEntry],
    index: u16,
) -> Result<Step, AllocError>
    requires runnable { IsRunnable world.now }
    requires formed { IsFormed world.now state.old }
    ensures formed { IsFormed world.now state.new }
    ensures takes { IfOk result (λ step. (left : List Answer) → TakesForm Part.Calls world.now state.old state.new left left step pool.now (Operation.New index)) }
    ensures err { OnErr result (Keeps world.now state.old state.new) }
{
    let Some(class) = class_at(pool, index) else {
        return Ok(Step::NotMine);
    };
    new_object(state, world, class)
}

// The method is called, unless it is the library's.
fn call(
    state: &mut MachineState,
    world: &World,
    script: &mut Script,
    pool: &[PoolEntry],
    mode: Mode,
    index: u16,
) -> Result<Step, AllocError>
    requires runnable { IsRunnable world.now }
    requires formed { IsFormed world.now state.old }
    requires there { StandsForOne world.now state.old }
    ensures formed { IsFormed world.now state.new }
    ensures takes { IfOk result (λ step. TakesForm Part.Calls world.now state.old state.new (answers_left script.old) (answers_left script.new) step pool.now (Operation.Invoke mode index)) }
    ensures err { OnErr result (Keeps world.now state.old state.new) }
    ensures script { OnErr result (script.new ≡ script.old) }
{
    let Some(named) = invoked(pool, index, mode) else {
        return Ok(Step::NotMine);
    };
    if is_library_call(state, world, mode, named) {
        return Ok(Step::NotMine);
    }
    invoke(state, world, script, mode, named)
}

/// Executes the calls' instruction, and leaves any other one.
///
/// # Errors
/// Where there is no memory; the state stands for what it stood for then, and the script is as it was.
pub(crate) fn execute(
    state: &mut MachineState,
    world: &World,
    script: &mut Script,
    pool: &[PoolEntry],
    operation: Operation,
) -> Result<Step, AllocError>
    requires runnable { IsRunnable world.now }
    requires formed { IsFormed world.now state.old }
    requires there { StandsForOne world.now state.old }
    ensures formed { IsFormed world.now state.new }
    ensures takes { IfOk result (λ step. TakesForm Part.Calls world.now state.old state.new (answers_left script.old) (answers_left script.new) step pool.now operation) }
    ensures err { OnErr result (Keeps world.now state.old state.new) }
    ensures script { OnErr result (script.new ≡ script.old) }
{
    match operation {
        Operation::Do(basic) => execute_basic(state, world, basic),
        Operation::FieldAccess(access, index) => access_field(state, world, pool, access, index),
        Operation::Invoke(mode, index) => call(state, world, script, pool, mode, index),
        Operation::New(index) => announce(state, world, pool, index),
        _ => Ok(Step::NotMine),
    }
}
