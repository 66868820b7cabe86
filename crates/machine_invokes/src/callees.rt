//! What a call of a method of an object is to run, once the receiver and the arguments are taken (JVMS
//! 6, `invokeinterface` to `invokevirtual`).

ghost use Rattle.std.specs.Prelude.{◌≡◌, ◌<◌, ◌∷◌, ◌++◌, [], List, ℕ, Bool, codes, length, map, nat_lt, Some, None};
ghost use Rattle.std.specs.List.{AllByRecursion};
ghost use Rattle.std.specs.Str.{bytes_eq};
ghost use Rattle.class_file.specs.Lookup.{reference_seen};
ghost use Rattle.class_heads.specs.Hierarchy.{name_at, superclasses};
ghost use Rattle.class_machine.specs.Classes.{is_among};
ghost use Rattle.machine_values.specs.declared.frames.Frame.{Frame as FrameOf};
ghost use Rattle.machine_values.specs.declared.names.Name.{Name as NameOf};
ghost use Rattle.machine_values.specs.declared.values.Value.{Value as ValueOf};
ghost use Rattle.machine_values.specs.Standing.{Settled};
ghost use Rattle.machine_frames.specs.declared.calls.Receiver.TheVariants.{Announced, Object};
ghost use Rattle.machine_steps.specs.Programs.{IsRunnable};
ghost use Rattle.machine_steps.specs.Runs.{IsFormed, IsMethod};
ghost use Rattle.machine_invokes.specs.Callees.{CalleeIs, IsCallee};

use crate::choosing::{Choice, choose_null, choose_on, find_instance};
use crate::selecting::is_known;
use crate::taking::are_settled;
use aj_names::{ClassId, MethodId};
use class_file::Reference;
use class_world::World;
use machine_frames::{Call, Receiver};
use machine_invocations::{declaring_class, superclass_of};
use machine_steps::class_name;
use machine_values::{Frame, Heap, MachineState, Ref};

/// What a call on a receiver is to run.
#[derive(Clone, Copy)]
pub enum Callee {
    /// The member that the instruction names isn't there.
    Missing,
    /// The run is Broken.
    Breaks,
    /// The receiver is null.
    Null,
    /// The method, on the object.
    On(MethodId, Ref),
    /// The constructor, on a new object of the class, which the token of this number becomes.
    Built(MethodId, ClassId, u64),
}

// Of a call on null.
fn callee_of_null(frame: &Frame, world: &World, named: Reference<'_>) -> Callee
    ensures called { (names : List NameOf) (special : Bool) (given : List ValueOf) → CalleeIs world.now frame.now names special (reference_seen named.entry) (Object None) given result }
    ensures method { IsCallee world.now result }
{
    match choose_null(frame, world, named) {
        Choice::Missing => Callee::Missing,
        Choice::Breaks => Callee::Breaks,
        Choice::Runs(_method) => Callee::Null,
    }
}

// Of a call on an object.
fn callee_of_object(
    heap: &Heap,
    frame: &Frame,
    world: &World,
    special: bool,
    named: Reference<'_>,
    at: Ref,
) -> Callee
    requires runnable { IsRunnable world.now }
    requires frame { IsMethod world.now frame.now.method.0 }
    ensures called { (given : List ValueOf) → AllByRecursion (Settled (length heap.now.names)) given → CalleeIs world.now frame.now heap.now.names special (reference_seen named.entry) (Object (Some at)) given result }
    ensures method { IsCallee world.now result }
{
    if !is_known(heap, at) {
        return Callee::Breaks;
    }
    match choose_on(heap, frame, world, special, named, at) {
        Choice::Missing => Callee::Missing,
        Choice::Breaks => Callee::Breaks,
        Choice::Runs(method) => Callee::On(method, at),
    }
}

/// Whether it is the name of constructors (JVMS 3.9).
pub(crate) fn names_constructors(name: &[u8]) -> bool
    ensures { result ≡ bytes_eq name.now (codes "<init>") }
{
    name == b"<init>".as_slice()
}

fn are_same(name: &[u8], other: &[u8]) -> bool
    ensures { result ≡ bytes_eq name.now other.now }
{
    name == other
}

fn is_class(world: &World, class: ClassId) -> bool
    ensures { result ≡ nat_lt class.0 (length world.now.heads) }
{
    class.0 < world.classes()
}

// Whether the class or a superclass has the name.
fn is_upward(world: &World, class: ClassId, name: &[u8]) -> bool
    requires { class.0 < length world.now.heads }
    ensures { result ≡ is_among (map (name_at world.now.heads) (superclasses world.now.heads class.0)) name.now }
{
    let mut at = class;
    'upward: for _turn in 0..world.classes() {
        if are_same(name, class_name(world, at)) {
            return true;
        }
        match superclass_of(world, at) {
            Some(above) => at = above,
            None => return false,
        }
    }
    false
}

// Of a call on a token, which only a constructor of its class or a superclass may have (JVMS 4.9.4).
fn callee_of_token(
    frame: &Frame,
    world: &World,
    special: bool,
    named: Reference<'_>,
    class: ClassId,
    number: u64,
) -> Callee
    requires runnable { IsRunnable world.now }
    ensures called { (names : List NameOf) (given : List ValueOf) → AllByRecursion (Settled (length names)) given → CalleeIs world.now frame.now names special (reference_seen named.entry) (Announced class number) given result }
    ensures method { IsCallee world.now result }
{
    if !special {
        return Callee::Breaks;
    }
    if !names_constructors(named.member.name) {
        return Callee::Breaks;
    }
    let Some(found) = find_instance(world, named) else {
        return Callee::Missing;
    };
    if !is_class(world, class) {
        return Callee::Breaks;
    }
    if is_upward(
        world,
        class,
        class_name(world, declaring_class(world, found)),
    ) {
        return Callee::Built(found, class, number);
    }
    Callee::Breaks
}

/// What the call is to run, which was taken from the running frame.
pub(crate) fn callee_of(
    state: &MachineState,
    frame: &Frame,
    world: &World,
    special: bool,
    named: Reference<'_>,
    call: &Call,
) -> Callee
    requires runnable { IsRunnable world.now }
    requires frame { IsMethod world.now frame.now.method.0 }
    ensures called { CalleeIs world.now frame.now state.now.heap.names special (reference_seen named.entry) call.now.receiver call.now.arguments.items result }
    ensures method { IsCallee world.now result }
{
    if !are_settled(state.heap.count(), call.arguments.as_slice()) {
        return Callee::Breaks;
    }
    match call.receiver {
        Receiver::Announced(class, number) => {
            callee_of_token(frame, world, special, named, class, number)
        }
        Receiver::Object(object) => match object {
            None => callee_of_null(frame, world, named),
            Some(at) => callee_of_object(&state.heap, frame, world, special, named, at),
        },
    }
}
