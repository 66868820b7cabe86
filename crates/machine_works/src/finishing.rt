//! The work of a library call, taken by the frame that waits at it.

ghost use Rattle.std.specs.Prelude.{◌≡◌, ◌<◌, true, length, IfOk, OnErr};
ghost use Rattle.class_machine.specs.Classes.{Method};
ghost use Rattle.machine_values.specs.declared.frames.Purpose.TheVariants.{Within};
ghost use Rattle.machine_values.specs.States.{is_known_purpose};
ghost use Rattle.machine_requests.specs.Telling.{is_class_type};
ghost use Rattle.machine_steps.specs.Moves.{Moves};
ghost use Rattle.machine_steps.specs.Programs.{IsRunnable};
ghost use Rattle.machine_steps.specs.Runs.{IsMethod, IsFormed};
ghost use Rattle.machine_invocations.specs.Keeping.{Keeps, IsSame};
ghost use Rattle.machine_invocations.specs.Methods.{Sees};
ghost use Rattle.machine_invocations.specs.Returning.{IsSettledResult};
ghost use Rattle.machine_works.specs.Finishing.{ends_call, calls_within, LoadsClass, MovesToClass, StandsAtWork, StaysAtThrow, Finishes};

use aj_names::{Base, FieldType, MethodId};
use class_file::{NamedType, Reference};
use class_world::World;
use machine_invocations::{begin, declared, enter, is_native, member_text, take_back};
use machine_rules::Work;
use machine_steps::{Step, fail, raise, tell};
use machine_values::{Ending, Event, MachineState, Purpose, Ref, Value, Wait};
use std::alloc::AllocError;

/// What a call that loads a class comes to.
#[derive(Drop)]
pub enum Loading {
    /// The initialisers of the class come first: their frames stand on top.
    Begins,
    /// The running frame went on with the object that stands for the class.
    Goes(Step),
}

/// The running frame, which waits at its call of a library method, goes on behind the call, with its event
/// and its result if there are such; `super_call` where that is a this or super call of a constructor.
pub fn end_call(
    state: &mut MachineState,
    world: &World,
    super_call: bool,
    said: Option<Event>,
    value: Option<Value>,
) -> Step
    requires runnable { IsRunnable world.now }
    requires formed { IsFormed world.now state.old }
    requires settled { IsSettledResult (length state.old.heap.names) value }
    ensures formed { IsFormed world.now state.new }
    ensures moves { Moves world.now state.old state.new result (ends_call said super_call value state.old) }
{
    let step = take_back(state, world, super_call, value);
    match said {
        Some(event) => tell(state, event, step),
        None => step,
    }
}

// Into the method that gives the text of the object; what the call does with the text is kept with its
// frame. A native method's text isn't had.
fn call_within(
    state: &mut MachineState,
    world: &World,
    method: MethodId,
    object: Ref,
    wait: Wait,
) -> Result<Step, AllocError>
    requires runnable { IsRunnable world.now }
    requires formed { IsFormed world.now state.old }
    requires method { IsMethod world.now method.0 }
    requires object { object.0 < length state.old.heap.names }
    requires wait { is_known_purpose (length state.old.heap.names) (Within wait) ≡ true }
    ensures formed { IsFormed world.now state.new }
    ensures moves { IfOk result (λ step. (callee : Method) → Sees world.now method.0 callee → Moves world.now state.old state.new step (calls_within callee object wait state.old)) }
    ensures err { OnErr result (Keeps world.now state.old state.new) }
    ensures same { OnErr result (IsSame state.old state.new) }
{
    let place = declared(world, method);
    let name = &place.method.name;
    let named = Reference {
        class: place.head.name.as_slice(),
        member: NamedType {
            name: name.name.as_slice(),
            descriptor: name.descriptor.as_slice(),
        },
    };
    if is_native(world, method) {
        let alloc = *state.frames.allocator();
        let text = member_text(alloc, named.class, named.member.name)?;
        return Ok(Step::Ended(Ending::Unresolved(text)));
    }
    enter(
        state,
        world,
        named,
        method,
        Some(object),
        &[Value::Reference(object)],
        Purpose::Within(wait),
    )
}

/// The initialisers of the class that are pending come first, and the call is to be executed again;
/// else on with the object that stands for the class (JVMS 2.17.4). An array type initialises nothing.
///
/// # Errors
/// Where there is no memory; the state is as it was then.
pub fn load(
    state: &mut MachineState,
    world: &World,
    class: &FieldType,
) -> Result<Loading, AllocError>
    requires runnable { IsRunnable world.now }
    requires formed { IsFormed world.now state.old }
    requires class { is_class_type class.now ≡ true }
    ensures formed { IsFormed world.now state.new }
    ensures loads { IfOk result (λ loaded. LoadsClass world.now state.old state.new class.now loaded) }
    ensures err { OnErr result (Keeps world.now state.old state.new) }
    ensures same { OnErr result (IsSame state.old state.new) }
{
    let count = state.heap.count();
    let at = state.heap.class_object(class)?;
    let object = Value::Reference(at);
    if class.dims > 0 {
        let step = take_back(state, world, false, Some(object));
        return Ok(Loading::Goes(step));
    }
    let Base::Class(name) = &class.base else {
        return Ok(Loading::Goes(Step::Ended(Ending::Broken)));
    };
    let Some(place) = world.class(name) else {
        return Ok(Loading::Goes(Step::Ended(Ending::Broken)));
    };
    let some = match begin(state, world, place) {
        Ok(some) => some,
        Err(failed) => {
            state.heap.truncate(count);
            return Err(failed);
        }
    };
    if some {
        return Ok(Loading::Begins);
    }
    let step = take_back(state, world, false, Some(object));
    Ok(Loading::Goes(step))
}

// To the initialisers of the class that are pending, or on with the object that stands for it.
fn load_class(
    state: &mut MachineState,
    world: &World,
    class: &FieldType,
) -> Result<Step, AllocError>
    requires runnable { IsRunnable world.now }
    requires formed { IsFormed world.now state.old }
    requires class { is_class_type class.now ≡ true }
    ensures formed { IsFormed world.now state.new }
    ensures moves { IfOk result (λ step. MovesToClass world.now state.old state.new step class.now) }
    ensures err { OnErr result (Keeps world.now state.old state.new) }
    ensures same { OnErr result (IsSame state.old state.new) }
{
    match load(state, world, class)? {
        Loading::Begins => Ok(Step::Went),
        Loading::Goes(step) => Ok(step),
    }
}

/// The running frame, which waits at its call of a library method, goes on by what came of the call;
/// `super_call` where that is a this or super call of a constructor.
///
/// # Errors
/// Where there is no memory; the state is as it was then.
pub fn finish_work(
    state: &mut MachineState,
    world: &World,
    super_call: bool,
    work: Work,
) -> Result<Step, AllocError>
    requires runnable { IsRunnable world.now }
    requires formed { IsFormed world.now state.old }
    requires there { StandsAtWork world.now state.old work }
    ensures formed { IsFormed world.now state.new }
    ensures moves { IfOk result (λ step. Finishes world.now state.old state.new step super_call work) }
    ensures err { OnErr result (Keeps world.now state.old state.new) }
    ensures same { OnErr result (IsSame state.old state.new) }
    ensures thrown { OnErr result (StaysAtThrow work state.old state.new) }
{
    match work {
        Work::Results(said, value) => Ok(end_call(state, world, super_call, said, value)),
        Work::Throws(x) => raise(state, world, x),
        Work::Faults(fault) => fail(state, world, fault),
        Work::Calls {
            method,
            object,
            wait,
        } => call_within(state, world, method, object, wait),
        Work::Loads(class) => load_class(state, world, &class),
        Work::Exits(status) => Ok(Step::Ended(Ending::Exit(status))),
        Work::Misuses => Ok(Step::Ended(Ending::Broken)),
    }
}
