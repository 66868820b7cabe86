//! Frames of calls (JVMS 3.6, 3.11.8).

ghost use Rattle.std.specs.Prelude.{◌≡◌, ◌+◌, ◌≤◌, ◌<◌, ◌^◌, true, nat_le, length, IfOk, OnOk, OnErr};
ghost use Rattle.std.specs.List.{AllByRecursion};
ghost use Rattle.class_file.specs.Lookup.{reference_seen};
ghost use Rattle.class_machine.specs.Classes.{Method};
ghost use Rattle.machine_values.specs.Stacks.{weight, width};
ghost use Rattle.machine_values.specs.Standing.{Settled};
ghost use Rattle.machine_values.specs.States.{is_known_object, is_known_purpose};
ghost use Rattle.machine_requests.specs.Replies.{IsLonger};
ghost use Rattle.machine_steps.specs.Moves.{Moves};
ghost use Rattle.machine_steps.specs.Programs.{IsRunnable};
ghost use Rattle.machine_steps.specs.Runs.{IsMethod, IsFormed};
ghost use Rattle.machine_invocations.specs.Entering.{beginning, filled_with, with_argument, AddsOnly, FindsLock, Locks, LocksNothing, PushesCall, enters_with};
ghost use Rattle.machine_invocations.specs.Keeping.{Keeps, IsSame};
ghost use Rattle.machine_invocations.specs.Methods.{Sees};

use crate::methods::{declared, is_synchronized};
use crate::texts::member_text;
use aj_names::{Base, FieldType, Items, MethodId};
use class_file::Reference;
use class_world::World;
use machine_code::MethodEntry;
use machine_requests::enter_monitor;
use machine_steps::{Step, code_of_method};
use machine_values::{
    Ending, Frame, Heap, Local, Locals, MachineState, Operands, Purpose, Ref, Value,
};
use std::alloc::{AllocError, Global};

/// Whether so many locals take the arguments.
pub fn fits(given: &[Value], locals: u16) -> bool
    ensures { result ≡ nat_le (weight given.now) locals }
{
    let mut left = locals as usize;
    for value in given {
        let width = value.width();
        if width > left {
            return false;
        }
        left -= width;
    }
    true
}

// Puts an argument into the locals, a long or a double into two; the next argument's place.
fn put_argument(locals: &mut Locals, at: u16, value: Value) -> u16
    requires there { at + width value ≤ length locals.old }
    requires fits { at + width value < 2 ^ 16 }
    ensures next { result ≡ at + width value }
    ensures put { locals.new ≡ with_argument at value locals.old }
{
    locals.set(at, Local::Holds(value));
    if value.is_wide() {
        locals.set(at + 1, Local::Second);
        at + 2
    } else {
        at + 1
    }
}

// The locals of a call: its arguments, and the others unset.
fn call_locals(alloc: Global, given: &[Value], count: u16) -> Result<Locals, AllocError>
    requires { weight given.now ≤ count }
    ensures { IfOk result (λ locals. locals ≡ filled_with count given.now) }
{
    let mut locals = Locals::new(alloc, count)?;
    let mut at = 0;
    for value in given {
        at = put_argument(&mut locals, at, *value);
    }
    Ok(locals)
}

// The object whose monitor a call of the method enters where it is synchronized: its receiver, or the
// object that stands for its class.
fn locked_object(
    heap: &mut Heap,
    world: &World,
    method: MethodId,
    receiver: Option<Ref>,
) -> Result<Ref, AllocError>
    requires runnable { IsRunnable world.now }
    requires method { IsMethod world.now method.0 }
    requires receiver { is_known_object (length heap.old.names) receiver ≡ true }
    ensures ok { IfOk result (λ at. (callee : Method) → Sees world.now method.0 callee → FindsLock world.now heap.old heap.new callee receiver at) }
    ensures within { IfOk result (λ at. at.0 < length heap.new.names) }
    ensures names { IsLonger heap.old heap.new }
    ensures adds { AddsOnly heap.old heap.new }
    ensures err { OnErr result (heap.new ≡ heap.old) }
{
    match receiver {
        Some(at) => Ok(at),
        None => {
            let name = declared(world, method).head.name.copy()?;
            let class = FieldType {
                base: Base::Class(name),
                dims: 0,
            };
            heap.class_object(&class)
        }
    }
}

// Enters the monitor of a call of the method, where it is synchronized. A call that fails changes nothing.
fn lock(
    heap: &mut Heap,
    monitors: &mut Items<u64>,
    world: &World,
    method: MethodId,
    receiver: Option<Ref>,
) -> Result<Option<Ref>, AllocError>
    requires runnable { IsRunnable world.now }
    requires method { IsMethod world.now method.0 }
    requires receiver { is_known_object (length heap.old.names) receiver ≡ true }
    ensures ok { IfOk result (λ monitor. (callee : Method) → Sees world.now method.0 callee → Locks world.now heap.old monitors.old heap.new monitors.new callee receiver monitor) }
    ensures names { IsLonger heap.old heap.new }
    ensures err { OnErr result (LocksNothing world.now heap.old monitors.old heap.new monitors.new) }
    ensures heap { OnErr result (heap.new ≡ heap.old) }
    ensures monitors { OnErr result (monitors.new ≡ monitors.old) }
{
    if !is_synchronized(world, method) {
        return Ok(None);
    }
    let count = heap.count();
    let at = locked_object(heap, world, method, receiver)?;
    match enter_monitor(monitors, Some(at)) {
        Ok(_entered) => Ok(Some(at)),
        Err(failed) => {
            heap.truncate(count);
            Err(failed)
        }
    }
}

/// A frame of the method as it begins, but for its monitor.
pub fn call_frame(
    alloc: Global,
    method: MethodId,
    entry: MethodEntry,
    given: &[Value],
    purpose: Purpose,
) -> Result<Frame, AllocError>
    requires { weight given.now ≤ entry.locals }
    ensures { IfOk result (λ frame. frame ≡ beginning method entry given.now purpose) }
{
    let operands = Operands::new(alloc, entry.room)?;
    let locals = call_locals(alloc, given, entry.locals)?;
    Ok(Frame {
        method,
        pc: 0,
        operands,
        locals,
        monitor: None,
        constructed: false,
        purpose,
    })
}

/// Puts the frame of a call of the method on top, and enters its monitor.
///
/// # Errors
/// Where there is no memory; the state stands for what it stood for then.
pub fn push_call(
    state: &mut MachineState,
    world: &World,
    method: MethodId,
    receiver: Option<Ref>,
    frame: Frame,
) -> Result<(), AllocError>
    requires runnable { IsRunnable world.now }
    requires method { IsMethod world.now method.0 }
    requires receiver { is_known_object (length state.old.heap.names) receiver ≡ true }
    ensures ok { OnOk result ((callee : Method) → Sees world.now method.0 callee → PushesCall world.now state.old state.new callee receiver frame) }
    ensures err { OnErr result (Keeps world.now state.old state.new) }
    ensures same { OnErr result (IsSame state.old state.new) }
{
    state.frames.reserve(1)?;
    let monitor = lock(
        &mut state.heap,
        &mut state.monitors,
        world,
        method,
        receiver,
    )?;
    let mut locked = frame;
    locked.monitor = monitor;
    state.frames.push_reserved(locked);
    Ok(())
}

/// Into the method's code, with the receiver and the arguments as its first locals (JVMS 3.6, 3.11.8).
/// Where it has no code, the member that the instruction names is unresolved; where the code has too
/// few locals, the run is Broken.
///
/// # Errors
/// Where there is no memory; the state is as it was then.
pub fn enter(
    state: &mut MachineState,
    world: &World,
    named: Reference<'_>,
    method: MethodId,
    receiver: Option<Ref>,
    given: &[Value],
    purpose: Purpose,
) -> Result<Step, AllocError>
    requires runnable { IsRunnable world.now }
    requires formed { IsFormed world.now state.old }
    requires method { IsMethod world.now method.0 }
    requires receiver { is_known_object (length state.old.heap.names) receiver ≡ true }
    requires given { AllByRecursion (Settled (length state.old.heap.names)) given.now }
    requires purpose { is_known_purpose (length state.old.heap.names) purpose ≡ true }
    ensures entered { IfOk result (λ step. (callee : Method) → Sees world.now method.0 callee → Moves world.now state.old state.new step (enters_with (reference_seen named.entry) callee receiver given.now purpose state.old)) }
    ensures formed { IsFormed world.now state.new }
    ensures err { OnErr result (Keeps world.now state.old state.new) }
    ensures same { OnErr result (IsSame state.old state.new) }
{
    let alloc = *state.frames.allocator();
    let Some(code) = code_of_method(world, method) else {
        let name = member_text(alloc, named.class, named.member.name)?;
        return Ok(Step::Ended(Ending::Unresolved(name)));
    };
    let entry = code.entry();
    if !fits(given, entry.locals) {
        return Ok(Step::Ended(Ending::Broken));
    }
    let frame = call_frame(alloc, method, entry, given, purpose)?;
    push_call(state, world, method, receiver, frame)?;
    Ok(Step::Went)
}
