//! What a static call comes to, once its arguments are taken (JVMS 2.17.4, 5.5, 6, `invokestatic`).

ghost use Rattle.std.specs.Prelude.{◌≡◌, ◌<◌, length, IfOk, OnErr};
ghost use Rattle.class_file.specs.Lookup.{reference_seen};
ghost use Rattle.machine_steps.specs.Programs.{IsRunnable};
ghost use Rattle.machine_steps.specs.Runs.{IsFormed, IsMethod};
ghost use Rattle.machine_invocations.specs.Keeping.{Keeps};
ghost use Rattle.machine_invokes.specs.Starting.{StartsAtTop, StartsClass};

use crate::begun::have_begun;
use crate::choosing::{Choice, choose_static};
use crate::taking::are_settled;
use aj_names::{Items, MethodId};
use class_file::Reference;
use class_world::World;
use machine_invocations::{begin, declaring_class};
use machine_values::{MachineState, Value};
use std::alloc::AllocError;

/// What a static call comes to, once its arguments are taken.
#[derive(Drop)]
pub enum Start {
    /// The member that the instruction names isn't there.
    Missing,
    /// The run is Broken.
    Breaks,
    /// Initialisers come first.
    Begins,
    /// The method is to run. Where classes were marked as begun, which had begun before.
    Runs(MethodId, Option<Items<bool>>),
}

// The trigger of the class that declares the method.
fn start_class(
    state: &mut MachineState,
    world: &World,
    method: MethodId,
) -> Result<Start, AllocError>
    requires runnable { IsRunnable world.now }
    requires formed { IsFormed world.now state.old }
    requires method { IsMethod world.now method.0 }
    ensures started { IfOk result (λ start. StartsClass world.now state.old state.new method.0 start) }
    ensures formed { IsFormed world.now state.new }
    ensures err { OnErr result (Keeps world.now state.old state.new) }
{
    let class = declaring_class(world, method);
    if have_begun(world, state.begun.as_slice(), class) {
        return Ok(Start::Runs(method, None));
    }
    let alloc = *state.frames.allocator();
    let before = Items::from_slice(alloc, state.begun.as_slice())?;
    let some = begin(state, world, class)?;
    if some {
        return Ok(Start::Begins);
    }
    Ok(Start::Runs(method, Some(before)))
}

/// The search for the static method, and the trigger of its class (JVMS 2.17.4, 5.5).
///
/// # Errors
/// Where there is no memory; the state stands for what it stood for then.
pub fn start_static(
    state: &mut MachineState,
    world: &World,
    named: Reference<'_>,
    given: &[Value],
) -> Result<Start, AllocError>
    requires runnable { IsRunnable world.now }
    requires formed { IsFormed world.now state.old }
    requires there { 0 < length state.old.frames.items }
    ensures started { IfOk result (λ start. StartsAtTop world.now state.old state.new (reference_seen named.entry) given.now start) }
    ensures formed { IsFormed world.now state.new }
    ensures err { OnErr result (Keeps world.now state.old state.new) }
{
    if !are_settled(state.heap.count(), given) {
        return Ok(Start::Breaks);
    }
    let top = state.frames.len() - 1;
    match choose_static(&state.frames[top], world, named, given) {
        Choice::Missing => Ok(Start::Missing),
        Choice::Breaks => Ok(Start::Breaks),
        Choice::Runs(method) => start_class(state, world, method),
    }
}
