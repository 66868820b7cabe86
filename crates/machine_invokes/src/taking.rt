//! What invocations take from the running frame.

ghost use Rattle.std.specs.Prelude.{◌≡◌, ◌<◌, ◌∷◌, [], ◌++◌, reverse, length, MatchOption, IfOk, OnErr};
ghost use Rattle.std.specs.List.{list_all};
ghost use Rattle.class_machine.specs.Descriptors.{parameters_in};
ghost use Rattle.machine_values.specs.Standing.{is_settled};
ghost use Rattle.machine_frames.specs.Calls.{kinds_of};
ghost use Rattle.machine_frames.specs.Undoing.{receiver_value};
ghost use Rattle.machine_invokes.specs.Taking.{TakesStatic, StaticTakeBreaks, TakesOn, TakeBreaks, IsPutBack, PutsBack};

use class_machine::kinds::Kind;
use machine_code::parameter_kind;
use machine_frames::{Call, call_on, call_static, put_back, put_call_back};
use machine_values::{MachineState, Value};
use std::alloc::{AllocError, Global};

/// The kinds of the parameters (JVMS 4.3.3).
pub fn parameter_kinds(alloc: Global, descriptor: &[u8]) -> Result<Vec<Kind>, AllocError>
    ensures { IfOk result (λ kinds. kinds.items ≡ kinds_of (parameters_in descriptor.now)) }
{
    let mut kinds = Vec::new(alloc);
    'kinds: while let Some(kind) = parameter_kind(descriptor, kinds.len()) {
        kinds.push(kind)?;
    }
    Ok(kinds)
}

fn is_settled(count: usize, held: &Value) -> bool
    ensures { result ≡ is_settled count held.now }
{
    match held {
        Value::Reference(at) => (at.0 as usize) < count,
        Value::Token(_, _) | Value::ReturnAddress(_) => false,
        _ => true,
    }
}

/// Whether each is a plain value, and refers to none but the first so many objects.
pub fn are_settled(count: usize, values: &[Value]) -> bool
    ensures { result ≡ list_all (is_settled count) values.now }
{
    values.iter().all(|held| is_settled(count, held))
}

/// Takes the arguments of a static method from the running frame. None: the run is Broken.
pub fn take_static(
    alloc: Global,
    state: &mut MachineState,
    kinds: &[Kind],
) -> Result<Option<Vec<Value>>, AllocError>
    requires { 0 < length state.old.frames.items }
    ensures taken { IfOk result (λ o. MatchOption o (StaticTakeBreaks kinds.now state.old state.new) (λ vs. TakesStatic kinds.now state.old vs.items state.new)) }
    ensures err { OnErr result (IsPutBack state.old state.new) }
{
    let top = state.frames.len() - 1;
    let Some(arguments) = call_static(alloc, &mut state.frames[top], kinds)? else {
        return Ok(None);
    };
    Ok(Some(arguments))
}

/// Takes the receiver and the arguments of a method of an object. None: the run is Broken.
pub fn take_on(
    alloc: Global,
    state: &mut MachineState,
    kinds: &[Kind],
) -> Result<Option<Call>, AllocError>
    requires { 0 < length state.old.frames.items }
    ensures taken { IfOk result (λ o. MatchOption o (TakeBreaks kinds.now state.old state.new) (λ call. TakesOn kinds.now state.old call.receiver call.arguments.items state.new)) }
    ensures err { OnErr result (IsPutBack state.old state.new) }
{
    let top = state.frames.len() - 1;
    let Some(call) = call_on(alloc, &mut state.frames[top], kinds)? else {
        return Ok(None);
    };
    Ok(Some(call))
}

/// Puts the arguments back into the frame of that number.
pub fn put_arguments_back(state: &mut MachineState, index: usize, arguments: &[Value])
    requires { index < length state.old.frames.items }
    ensures { PutsBack index (reverse arguments.now) state.old state.new }
{
    put_back(&mut state.frames[index], arguments);
}

/// Puts the receiver and the arguments back into the frame of that number.
pub fn put_receiver_back(state: &mut MachineState, index: usize, call: &Call)
    requires { index < length state.old.frames.items }
    ensures { PutsBack index (reverse call.now.arguments.items ++ receiver_value call.now.receiver ∷ []) state.old state.new }
{
    put_call_back(&mut state.frames[index], call);
}
