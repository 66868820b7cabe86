//! The invoke instructions, up to where a method is to run (JVMS 6, `invokeinterface` to
//! `invokevirtual`).

ghost use Rattle.std.specs.Prelude.{◌≡◌, ◌<◌, ◌+◌, ◌++◌, ◌∷◌, [], reverse, length, IfOk, OnErr, IsOk};
ghost use Rattle.class_file.specs.Lookup.{reference_seen};
ghost use Rattle.class_file.specs.Pool.{Reference as ReferenceOf};
ghost use Rattle.class_machine.specs.Classes.{member_text};
ghost use Rattle.class_machine.specs.declared.kinds.Mode.TheVariants.{Static};
ghost use Rattle.machine_values.specs.declared.observed.Ending.TheVariants.{Unresolved};
ghost use Rattle.machine_frames.specs.Undoing.{receiver_value};
ghost use Rattle.machine_steps.specs.Programs.{IsRunnable};
ghost use Rattle.machine_steps.specs.Runs.{IsFormed, IsMethod};
ghost use Rattle.machine_invocations.specs.Keeping.{Keeps};
ghost use Rattle.machine_invokes.specs.Building.{BuildsBy};
ghost use Rattle.machine_invokes.specs.Preparing.{purpose_for, Readies, ReadiesOn};
ghost use Rattle.machine_invokes.specs.Taking.{PutsBack};

use crate::building::fill_token;
use crate::callees::{Callee, callee_of, names_constructors};
use crate::choosing::lacks_room;
use crate::invocation::{Before, Invocation, Prepared};
use crate::peeks::is_special;
use crate::starting::{Start, start_static};
use crate::taking::{parameter_kinds, put_arguments_back, put_receiver_back, take_on, take_static};
use aj_names::{ClassId, MethodId};
use class_file::Reference;
use class_machine::kinds::{Fault, Mode};
use class_world::World;
use machine_frames::Call;
use machine_invocations::member_text;
use machine_steps::{Step, fail};
use machine_values::{Ending, MachineState, Purpose};
use std::alloc::{AllocError, Global};

// The member that the instruction names is unresolved.
fn unresolved(alloc: Global, named: Reference<'_>) -> Result<Ending, AllocError>
    ensures { IfOk result (λ ending. ending ≡ Unresolved (member_text (reference_seen named.entry))) }
{
    let text = member_text(alloc, named.class, named.member.name)?;
    Ok(Ending::Unresolved(text))
}

// A static call (JVMS 6, `invokestatic`).
fn prepare_static(
    state: &mut MachineState,
    world: &World,
    named: Reference<'_>,
) -> Result<Prepared, AllocError>
    requires runnable { IsRunnable world.now }
    requires formed { IsFormed world.now state.old }
    requires there { 0 < length state.old.frames.items }
    ensures ready { IfOk result (λ prepared. Readies world.now state.old state.new Static (reference_seen named.entry) prepared) }
    ensures formed { IsFormed world.now state.new }
    ensures err { OnErr result (Keeps world.now state.old state.new) }
{
    let alloc = *state.frames.allocator();
    let kinds = parameter_kinds(alloc, named.member.descriptor)?;
    let Some(arguments) = take_static(alloc, state, kinds.as_slice())? else {
        return Ok(Prepared::Done(Step::Ended(Ending::Broken)));
    };
    let top = state.frames.len() - 1;
    match start_static(state, world, named, arguments.as_slice()) {
        Ok(Start::Runs(method, saved)) => Ok(Prepared::Runs(Invocation {
            method,
            receiver: None,
            arguments,
            purpose: Purpose::Ordinary,
            before: Before::Arguments(saved),
        })),
        Ok(Start::Begins) => {
            put_arguments_back(state, top, arguments.as_slice());
            Ok(Prepared::Done(Step::Went))
        }
        Ok(Start::Breaks) => Ok(Prepared::Done(Step::Ended(Ending::Broken))),
        Ok(Start::Missing) => {
            put_arguments_back(state, top, arguments.as_slice());
            let ending = unresolved(alloc, named)?;
            Ok(Prepared::Done(Step::Ended(ending)))
        }
        Err(failed) => {
            put_arguments_back(state, top, arguments.as_slice());
            Err(failed)
        }
    }
}

// A this or super call of a constructor, or another call.
fn purpose_for(special: bool, name: &[u8]) -> Purpose
    ensures { (r : ReferenceOf) → r.member.name ≡ name.now → result ≡ purpose_for special r }
{
    if !special {
        return Purpose::Ordinary;
    }
    if names_constructors(name) {
        return Purpose::Constructs;
    }
    Purpose::Ordinary
}

// The constructor is to run on a new object of the class, which the token of this number becomes in the
// frame of that number, which runs.
fn build(
    state: &mut MachineState,
    world: &World,
    top: usize,
    method: MethodId,
    class: ClassId,
    number: u64,
    call: Call,
) -> Result<Prepared, AllocError>
    requires runnable { IsRunnable world.now }
    requires top { top + 1 ≡ length state.old.frames.items }
    requires class { class.0 < length world.now.heads }
    requires method { IsMethod world.now method.0 }
    ensures built { IfOk result (λ prepared. BuildsBy world.now method class number call.arguments.items state.old state.new prepared) }
    ensures formed { IsOk result → IsFormed world.now state.old → IsFormed world.now state.new }
    ensures err { OnErr result (PutsBack top (reverse call.arguments.items ++ receiver_value call.receiver ∷ []) state.old state.new) }
{
    match fill_token(state, world, top, class, number) {
        Err(failed) => {
            put_receiver_back(state, top, &call);
            Err(failed)
        }
        Ok(filled) => {
            if lacks_room(&state.frames[top], world, method) {
                return Ok(Prepared::Done(Step::Ended(Ending::Broken)));
            }
            Ok(Prepared::Runs(Invocation {
                method,
                receiver: Some(filled.at),
                arguments: call.arguments,
                purpose: Purpose::Ordinary,
                before: Before::Token(class, number, filled.operands, filled.locals),
            }))
        }
    }
}

// A call of a method of an object (JVMS 6, `invokespecial`, `invokevirtual` and `invokeinterface`).
fn prepare_on(
    state: &mut MachineState,
    world: &World,
    special: bool,
    named: Reference<'_>,
) -> Result<Prepared, AllocError>
    requires runnable { IsRunnable world.now }
    requires formed { IsFormed world.now state.old }
    requires there { 0 < length state.old.frames.items }
    ensures ready { IfOk result (λ prepared. ReadiesOn world.now state.old state.new special (reference_seen named.entry) prepared) }
    ensures formed { IsFormed world.now state.new }
    ensures err { OnErr result (Keeps world.now state.old state.new) }
{
    let alloc = *state.frames.allocator();
    let kinds = parameter_kinds(alloc, named.member.descriptor)?;
    let Some(call) = take_on(alloc, state, kinds.as_slice())? else {
        return Ok(Prepared::Done(Step::Ended(Ending::Broken)));
    };
    let top = state.frames.len() - 1;
    match callee_of(state, &state.frames[top], world, special, named, &call) {
        Callee::On(method, at) => Ok(Prepared::Runs(Invocation {
            method,
            receiver: Some(at),
            arguments: call.arguments,
            purpose: purpose_for(special, named.member.name),
            before: Before::Receiver,
        })),
        Callee::Built(method, class, number) => build(
            state, world, top, method, class, number, call,
        ),
        Callee::Breaks => Ok(Prepared::Done(Step::Ended(Ending::Broken))),
        Callee::Missing => {
            put_receiver_back(state, top, &call);
            let ending = unresolved(alloc, named)?;
            Ok(Prepared::Done(Step::Ended(ending)))
        }
        Callee::Null => {
            put_receiver_back(state, top, &call);
            let step = fail(state, world, Fault::NullPointer)?;
            Ok(Prepared::Done(step))
        }
    }
}

/// What the invocation comes to (JVMS 6, `invokeinterface` to `invokevirtual`): the step is done, or a
/// method is to run, where its receiver and its arguments are taken, and its class and that of an object
/// for a token are there.
///
/// # Errors
/// Where there is no memory; the state stands for what it stood for then.
pub fn prepare(
    state: &mut MachineState,
    world: &World,
    mode: Mode,
    named: Reference<'_>,
) -> Result<Prepared, AllocError>
    requires runnable { IsRunnable world.now }
    requires formed { IsFormed world.now state.old }
    ensures ready { IfOk result (λ prepared. Readies world.now state.old state.new mode (reference_seen named.entry) prepared) }
    ensures formed { IsFormed world.now state.new }
    ensures err { OnErr result (Keeps world.now state.old state.new) }
{
    if state.frames.is_empty() {
        return Ok(Prepared::Done(Step::Ended(Ending::Broken)));
    }
    match mode {
        Mode::Static => prepare_static(state, world, named),
        _ => prepare_on(state, world, is_special(mode), named),
    }
}
