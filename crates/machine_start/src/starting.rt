//! The first state of a run (JVMS 2.17.1).

ghost use Rattle.std.specs.Prelude.{◌≡◌, ◌++◌, false, None, length, replicate, IfOk, OnOk};
ghost use Rattle.std.specs.List.{sum};
ghost use Rattle.class_heads.specs.Numbers.{field_counts};
ghost use Rattle.machine_steps.specs.Programs.{IsRunnable};
ghost use Rattle.machine_steps.specs.Runs.{IsMethod, IsFormed};
ghost use Rattle.machine_start.specs.Opening.{HasOutput, IsFirstState, Starts};

use crate::arguments::make_arguments;
use crate::entering::{open_code, open_native};
use aj_names::{ClassId, Items};
use class_world::World;
use machine_fields::make_object;
use machine_invocations::is_native;
use machine_values::{Due, Entry, Heap, MachineState, Value};
use std::alloc::{AllocError, Global};

// A heap with the object of System.out.
fn first_heap(alloc: Global, world: &World) -> Result<Heap, AllocError>
    requires { IsRunnable world.now }
    ensures { IfOk result (λ heap. HasOutput world.now heap) }
{
    let Some(class) = world.class_named(b"java/io/PrintStream") else {
        unreachable!()
    };
    let mut heap = Heap::new(alloc);
    let _output = make_object(alloc, &mut heap, world, class)?;
    Ok(heap)
}

// So many static fields more, of which none was stored to.
fn push_unset(statics: &mut Items<Option<Value>>, count: usize) -> Result<(), AllocError>
    ensures { OnOk result (statics.new ≡ statics.old ++ replicate count None) }
{
    for _field in 0..count {
        statics.push(None)?;
    }
    Ok(())
}

// No value of any static field.
fn first_statics(alloc: Global, world: &World) -> Result<Items<Option<Value>>, AllocError>
    ensures { IfOk result (λ statics. statics ≡ replicate (sum (field_counts world.now.heads)) None) }
{
    let mut statics = Items::new(alloc);
    for class in 0..world.classes() {
        let head = world.head(ClassId(class));
        push_unset(&mut statics, head.fields.len())?;
    }
    Ok(statics)
}

// No class has begun.
fn first_marks(alloc: Global, world: &World) -> Result<Items<bool>, AllocError>
    ensures { IfOk result (λ begun. begun ≡ replicate (length world.now.heads) false) }
{
    let begun = vec![in alloc; false; world.classes() as usize]?;
    Ok(Items::from_vec(begun))
}

// The state without an entry.
fn first_state(alloc: Global, world: &World) -> Result<MachineState, AllocError>
    requires { IsRunnable world.now }
    ensures first { IfOk result (IsFirstState world.now) }
    ensures formed { IfOk result (IsFormed world.now) }
{
    let heap = first_heap(alloc, world)?;
    let statics = first_statics(alloc, world)?;
    let begun = first_marks(alloc, world)?;
    Ok(MachineState {
        frames: Vec::new(alloc),
        heap,
        statics,
        begun,
        monitors: Items::new(alloc),
        due: Due::Nothing,
    })
}

/// The first state of a run at the entry: the object of System.out is there, then what the arguments
/// name, in the order of the words; the entry's frame is there, and above it those of the initialisers
/// that are pending (JVMS 2.17.1, 2.17.4).
///
/// # Errors
/// Where there is no memory.
pub fn start(alloc: Global, world: &World, entry: &Entry) -> Result<MachineState, AllocError>
    requires runnable { IsRunnable world.now }
    requires method { IsMethod world.now entry.now.method.0 }
    ensures starts { IfOk result (Starts world.now entry.now) }
    ensures formed { IfOk result (IsFormed world.now) }
{
    let mut state = first_state(alloc, world)?;
    let given = make_arguments(alloc, &mut state.heap, world, entry.args.as_slice())?;
    if is_native(world, entry.method) {
        open_native(&mut state, world, entry.method, given)?;
        return Ok(state);
    }
    open_code(&mut state, world, entry.method, given.as_slice())?;
    Ok(state)
}
