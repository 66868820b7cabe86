//! The step of `multianewarray` (JVMS 6).

ghost use Rattle.std.specs.Prelude.{◌≡◌, ◌<◌, ◌≤◌, ℕ, true, length, IfOk, MatchOption, OnErr};
ghost use Rattle.std.specs.List.{list_any};
ghost use Rattle.class_file.specs.Text.{dimensions};
ghost use Rattle.class_heads.specs.Hierarchy.{is_array};
ghost use Rattle.class_world.specs.Tables.{Known};
ghost use Rattle.class_machine.specs.Answers.{is_negative};
ghost use Rattle.class_machine.specs.Classes as machine;
ghost use Rattle.class_machine.specs.Operations.{NewArrays};
ghost use Rattle.machine_values.specs.declared.state.MachineState.{MachineState as StateOf};
ghost use Rattle.machine_steps.specs.Executing.{executes};
ghost use Rattle.machine_steps.specs.Moves.{Moves};
ghost use Rattle.machine_steps.specs.Programs.{IsRunnable};
ghost use Rattle.machine_steps.specs.Runs.{IsFormed};
ghost use Rattle.machine_arrays.specs.Stepping.{TakesSizes, LacksSizes, asks};

use crate::making::make_arrays;
use crate::named::{array_named, has_dimensions};
use aj_names::Items;
use class_machine::kinds::Fault;
use class_world::World;
use machine_frames::{pop_sizes, put_sizes_back};
use machine_invocations::take_back;
use machine_steps::{Step, fail};
use machine_values::{Ending, MachineState, Value};
use std::alloc::{AllocError, Global};

// The name with dots for its slashes.
fn dotted(alloc: Global, name: &[u8]) -> Result<Vec<u8>, AllocError>
    ensures { IfOk result (λ text. text.items ≡ machine.dotted name.now) }
{
    name.iter()
        .map(|b| if *b == b'/' { b'.' } else { *b })
        .collect(alloc)
}

fn has_negative(sizes: &[i32]) -> bool
    ensures { result ≡ list_any is_negative sizes.now }
{
    sizes.iter().any(|size| *size < 0)
}

// Takes so many sizes from the running frame's operands. None: the run is Broken.
fn take_sizes(state: &mut MachineState, dims: u8) -> Result<Option<Vec<i32>>, AllocError>
    requires { 0 < length state.old.frames.items }
    ensures taken { IfOk result (λ o. MatchOption o (LacksSizes dims state.old) (λ xs. TakesSizes dims state.old xs.items state.new)) }
    ensures kept { (k : Known) → IsFormed k state.old → IsFormed k state.new }
    ensures err { OnErr result (state.new ≡ state.old) }
{
    let alloc = *state.frames.allocator();
    let top = state.frames.len() - 1;
    pop_sizes(alloc, &mut state.frames[top], dims)
}

// Puts the sizes back.
fn give_back(state: &mut MachineState, sizes: &[i32])
    requires { 0 < length state.old.frames.items }
    ensures { (dims : ℕ) (old : StateOf) → TakesSizes dims old sizes.now state.old → state.new ≡ old }
{
    let top = state.frames.len() - 1;
    put_sizes_back(&mut state.frames[top], sizes);
}

// Makes the arrays of the type, where the sizes were taken from the running frame.
fn new_arrays(
    state: &mut MachineState,
    world: &World,
    named: &[u8],
    sizes: &[i32],
) -> Result<Step, AllocError>
    requires runnable { IsRunnable world.now }
    requires formed { IsFormed world.now state.old }
    requires array { is_array named.now ≡ true }
    requires some { 0 < length sizes.now }
    requires deep { length sizes.now ≤ dimensions named.now }
    ensures formed { IsFormed world.now state.new }
    ensures moves { IfOk result (λ step. Moves world.now state.old state.new step (asks named.now sizes.now)) }
    ensures err { OnErr result (state.new ≡ state.old) }
{
    let alloc = *state.frames.allocator();
    let Some(class) = array_named(alloc, world, named)? else {
        let name = dotted(alloc, named)?;
        return Ok(Step::Ended(Ending::Unresolved(Items::from_vec(name))));
    };
    if has_negative(sizes) {
        return fail(state, world, Fault::NegativeArraySize);
    }
    let array = make_arrays(&mut state.heap, &class, sizes)?;
    let value = Value::Reference(array);
    Ok(take_back(state, world, false, Some(value)))
}

/// Makes an array of the array type that a Class entry names, and in it arrays of so many dimensions in
/// all (JVMS 6, `multianewarray`). Where the type doesn't have so many, the run is Broken.
///
/// # Errors
/// Where there is no memory; the state is as it was then.
pub fn step_new_arrays(
    state: &mut MachineState,
    world: &World,
    named: &[u8],
    dims: u8,
) -> Result<Step, AllocError>
    requires runnable { IsRunnable world.now }
    requires formed { IsFormed world.now state.old }
    ensures formed { IsFormed world.now state.new }
    ensures moves { IfOk result (λ step. Moves world.now state.old state.new step (executes (NewArrays named.now dims))) }
    ensures err { OnErr result (state.new ≡ state.old) }
{
    if !has_dimensions(named, dims) {
        return Ok(Step::Ended(Ending::Broken));
    }
    if state.frames.is_empty() {
        return Ok(Step::Ended(Ending::Broken));
    }
    let Some(sizes) = take_sizes(state, dims)? else {
        return Ok(Step::Ended(Ending::Broken));
    };
    match new_arrays(state, world, named, sizes.as_slice()) {
        Ok(step) => Ok(step),
        Err(failed) => {
            give_back(state, sizes.as_slice());
            Err(failed)
        }
    }
}
