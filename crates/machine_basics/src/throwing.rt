//! Objects that are thrown (JVMS 3.10, 6, `athrow`).

ghost use Rattle.std.specs.Prelude.{◌≡◌, ◌<◌, true, false, length, is_some, IfOk, OnErr};
ghost use Rattle.class_heads.specs.Hierarchy.{place_of, is_subtype};
ghost use Rattle.class_machine.specs.Values.{class_of, throwable_class};
ghost use Rattle.machine_values.specs.Standing.{maker_name, name_of};
ghost use Rattle.machine_requests.specs.Telling.{AreDistinct, AreFit, is_fit_maker};
ghost use Rattle.machine_steps.specs.Programs.{IsRunnable};
ghost use Rattle.machine_steps.specs.Runs.{IsFormed};
ghost use Rattle.machine_steps.specs.Moves.{Moves};
ghost use Rattle.machine_basics.specs.Turns.{throws};

use class_world::World;
use machine_fields::is_object_below;
use machine_steps::{Step, class_name, raise};
use machine_values::{Ending, Heap, MachineState, Maker, Name, Ref};
use std::alloc::AllocError;

// Whether the world has the class that the object was made of; an array was made of none.
fn has_made_class(world: &World, maker: &Maker) -> bool
    ensures there { result ≡ true → is_some (place_of world.now.heads (maker_name world.now.heads maker.now)) ≡ true }
    ensures missing { result ≡ false → AreDistinct world.now.heads → is_fit_maker (length world.now.heads) maker.now ≡ true → is_subtype world.now.heads (maker_name world.now.heads maker.now) throwable_class ≡ false }
{
    match maker {
        Maker::Class(class) => world.class_named(class_name(world, *class)).is_some(),
        Maker::Array(_) => false,
    }
}

// Whether the world has the class of the object.
fn has_class(world: &World, heap: &Heap, at: Ref) -> bool
    requires { at.0 < length heap.now.names }
    ensures there { result ≡ true → is_some (place_of world.now.heads (class_of (name_of world.now.heads heap.now.names at))) ≡ true }
    ensures missing { result ≡ false → AreDistinct world.now.heads → AreFit (length world.now.heads) heap.now.names → is_subtype world.now.heads (class_of (name_of world.now.heads heap.now.names at)) throwable_class ≡ false }
{
    match heap.name(at) {
        Name::Made(maker, _) => has_made_class(world, maker),
        Name::Literal(_) => world.class_named(b"java/lang/String").is_some(),
        Name::ClassObject(_) => world.class_named(b"java/lang/Class").is_some(),
    }
}

// Whether the object is a Throwable.
fn is_throwable(world: &World, heap: &Heap, at: Ref) -> bool
    requires { at.0 < length heap.now.names }
    ensures there { result ≡ true → is_some (place_of world.now.heads (class_of (name_of world.now.heads heap.now.names at))) ≡ true }
    ensures below { AreDistinct world.now.heads → AreFit (length world.now.heads) heap.now.names → is_subtype world.now.heads (class_of (name_of world.now.heads heap.now.names at)) throwable_class ≡ result }
{
    if !has_class(world, heap, at) {
        return false;
    }
    is_object_below(world, heap, at, b"java/lang/Throwable")
}

/// Throws the object. Where it is no Throwable the run is Broken.
///
/// # Errors
/// Where there is no memory; the state is as it was then.
pub(crate) fn throw(state: &mut MachineState, world: &World, x: Ref) -> Result<Step, AllocError>
    requires runnable { IsRunnable world.now }
    requires formed { IsFormed world.now state.old }
    requires known { x.0 < length state.old.heap.names }
    ensures formed { IsFormed world.now state.new }
    ensures moves { IfOk result (λ step. Moves world.now state.old state.new step (throws state.old x)) }
    ensures err { OnErr result (state.new ≡ state.old) }
{
    if !is_throwable(world, &state.heap, x) {
        return Ok(Step::Ended(Ending::Broken));
    }
    raise(state, world, x)
}
