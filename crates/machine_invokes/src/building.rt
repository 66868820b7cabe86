//! Objects for tokens (JVMS 6, `new`).

ghost use Rattle.std.specs.Prelude.{◌≡◌, ◌+◌, ◌<◌, length, IfOk, OnErr};
ghost use Rattle.class_machine.specs.World.{is_text_class};
ghost use Rattle.machine_steps.specs.Programs.{IsRunnable};
ghost use Rattle.machine_steps.specs.Runs.{IsFormed};
ghost use Rattle.machine_invokes.specs.Building.{FillsToken, IsAdded, IsMade};

use aj_names::{ClassId, Items};
use class_world::World;
use machine_fields::field_types;
use machine_frames::fill_in;
use machine_requests::make;
use machine_steps::class_name;
use machine_values::{Heap, Local, MachineState, Ref, Value};
use std::alloc::{AllocError, Global};

/// A new object that a token became, and what the frame held before.
#[derive(Drop)]
pub(crate) struct Filled {
    pub(crate) at: Ref,
    pub(crate) operands: Items<Value>,
    pub(crate) locals: Items<Local>,
}

// Whether the objects of the class have texts.
fn has_text(class: &[u8]) -> bool
    ensures { result ≡ is_text_class class.now }
{
    class == b"java/lang/String".as_slice()
        || class == b"java/lang/StringBuffer".as_slice()
        || class == b"java/lang/StringBuilder".as_slice()
}

// A new object of the class. A call that fails leaves the heap as it was.
fn make_object(
    alloc: Global,
    heap: &mut Heap,
    world: &World,
    class: ClassId,
) -> Result<Ref, AllocError>
    requires runnable { IsRunnable world.now }
    requires class { class.0 < length world.now.heads }
    ensures added { IfOk result (λ at. IsAdded heap.old heap.new at) }
    ensures made { IfOk result (λ at. IsMade world.now class.0 heap.old heap.new at) }
    ensures err { OnErr result (heap.new ≡ heap.old) }
{
    let types = field_types(alloc, world, class)?;
    make(
        heap,
        class,
        has_text(class_name(world, class)),
        types.as_slice(),
    )
}

/// Every copy of the token in the frame of that number, which runs, becomes a new object of the class.
///
/// # Errors
/// Where there is no memory; the state is as it was then.
pub(crate) fn fill_token(
    state: &mut MachineState,
    world: &World,
    top: usize,
    class: ClassId,
    number: u64,
) -> Result<Filled, AllocError>
    requires runnable { IsRunnable world.now }
    requires top { top + 1 ≡ length state.old.frames.items }
    requires class { class.0 < length world.now.heads }
    ensures filled { IfOk result (λ filled. FillsToken number state.old state.new filled.at filled.operands filled.locals) }
    ensures made { IfOk result (λ filled. IsMade world.now class.0 state.old.heap state.new.heap filled.at) }
    ensures formed { IsFormed world.now state.old → IsFormed world.now state.new }
    ensures err { OnErr result (state.new ≡ state.old) }
{
    let alloc = *state.frames.allocator();
    let frame = &state.frames[top];
    let operands = Items::from_slice(alloc, frame.operands.as_slice())?;
    let locals = Items::from_slice(alloc, frame.locals.as_slice())?;
    let at = make_object(alloc, &mut state.heap, world, class)?;
    fill_in(&mut state.frames[top], number, at);
    Ok(Filled {
        at,
        operands,
        locals,
    })
}
