//! Which method of an object a call runs, and whether it may (JVMS 6, `invokespecial`, `invokevirtual`
//! and `invokeinterface`).

ghost use Rattle.std.specs.Prelude.{◌≡◌, ◌<◌, nat_lt, length, IfSome};
ghost use Rattle.class_heads.specs.Hierarchy as rule;
ghost use Rattle.class_machine.specs.Classes.{Method};
ghost use Rattle.machine_values.specs.Standing.{name_of};
ghost use Rattle.machine_steps.specs.Programs.{IsRunnable};
ghost use Rattle.machine_steps.specs.Runs.{IsMethod};
ghost use Rattle.machine_invokes.specs.Selecting.{Selects, ServesAs};

use aj_names::MethodId;
use class_heads::ClassHead;
use class_world::World;
use machine_fields::is_object_below;
use machine_invocations::{class_of_object, declared, declaring_class, select, select_special};
use machine_values::{Heap, Ref};

/// Whether the heap has the object.
pub(crate) fn is_known(heap: &Heap, at: Ref) -> bool
    ensures { result ≡ nat_lt at.0 (length heap.now.names) }
{
    (at.0 as usize) < heap.count()
}

fn is_interface(head: &ClassHead) -> bool
    ensures { result ≡ rule.is_interface head.now }
{
    head.flags.0 & 0x0200 == 0x0200
}

/// Whether the object is an instance of the class that declares the method, or that is an interface.
pub(crate) fn serves_as(world: &World, heap: &Heap, at: Ref, method: MethodId) -> bool
    requires method { IsMethod world.now method.0 }
    requires known { at.0 < length heap.now.names }
    ensures { ServesAs world.now heap.now at method.0 result }
{
    let place = declared(world, method);
    if is_interface(place.head) {
        return true;
    }
    is_object_below(world, heap, at, place.head.name.as_slice())
}

/// The method that a call in code of the current method runs on the object, where this one was found;
/// `special` for `invokespecial`.
pub(crate) fn selected(
    world: &World,
    heap: &Heap,
    current: MethodId,
    special: bool,
    at: Ref,
    found: MethodId,
) -> Option<MethodId>
    requires runnable { IsRunnable world.now }
    requires current { IsMethod world.now current.0 }
    requires found { IsMethod world.now found.0 }
    requires known { at.0 < length heap.now.names }
    ensures selected { Selects world.now heap.now current.0 special at found.0 result }
    ensures method { IfSome result (λ method. IsMethod world.now method.0) }
{
    if special {
        return select_special(world, declaring_class(world, current), found);
    }
    select(world, class_of_object(world, heap, at), found)
}
