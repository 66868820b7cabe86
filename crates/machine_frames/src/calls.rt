//! What calls take from their frame (JVMS 3.11.8).

ghost use Rattle.std.specs.Prelude.{◌≡◌, ℕ, [], ◌∷◌, ◌++◌, reverse, MatchOption, IfOk, IfSome, OnErr};
ghost use Rattle.machine_values.specs.States.{IsFrameWithin};
ghost use Rattle.machine_frames.specs.Operands.{StaysKnown};
ghost use Rattle.machine_frames.specs.Calls.{PopsArguments, LacksArguments, PopsReceiver, LacksReceiver, CallsStatic, StaticCallBreaks, CallsOn, CallBreaks, AreSettledIn, IsKnownReceiver};
ghost use Rattle.machine_frames.specs.Undoing.{receiver_value, IsTaken, TakesAll};

use crate::operands::{pop, pop_kind};
use aj_names::ClassId;
use class_machine::kinds::Kind;
use machine_values::{Frame, Operands, Ref, Value};
use std::alloc::{AllocError, Global};

/// On what a method is called.
#[derive(Clone, Copy)]
pub enum Receiver {
    /// An object, or null.
    Object(Option<Ref>),
    /// The token of this class and number, whose object a constructor is to begin with.
    Announced(ClassId, u64),
}

/// A call of a method of an object.
#[derive(Drop)]
pub struct Call {
    pub receiver: Receiver,
    pub arguments: Vec<Value>,
}

// Takes the arguments of these kinds, of which the last is topmost.
fn pop_arguments(
    alloc: Global,
    operands: &mut Operands,
    kinds: &[Kind],
) -> Result<Option<Vec<Value>>, AllocError>
    ensures room { operands.new.room ≡ operands.old.room }
    ensures taken { IfOk result (λ o. MatchOption o (LacksArguments kinds.now operands.old) (λ vs. PopsArguments kinds.now operands.old vs.items operands.new)) }
    ensures within { StaysKnown operands.old operands.new }
    ensures settled { IfOk result (λ o. IfSome o (λ vs. AreSettledIn operands.old vs.items)) }
    ensures err { OnErr result (operands.new ≡ operands.old) }
    ensures popped { IfOk result (λ o. IfSome o (λ vs. TakesAll operands.old (reverse vs.items) operands.new)) }
{
    let mut arguments = vec![in alloc; Value::Null; kinds.len()]?;
    let mut left = kinds.len();
    'taking: while left > 0 {
        left -= 1;
        let Some(held) = pop_kind(operands, kinds[left]) else {
            return Ok(None)
        };
        arguments[left] = held;
    }
    Ok(Some(arguments))
}

/// The arguments of a static method whose parameters have these kinds (JVMS 6, `invokestatic`), taken
/// from the operands. None: the run is Broken.
///
/// # Errors
/// Where there is no memory; the frame is as it was then.
pub fn call_static(
    alloc: Global,
    frame: &mut Frame,
    kinds: &[Kind],
) -> Result<Option<Vec<Value>>, AllocError>
    ensures rest { frame.new ≡ record frame.old { operands = frame.new.operands } }
    ensures room { frame.new.operands.room ≡ frame.old.operands.room }
    ensures taken { IfOk result (λ o. MatchOption o (StaticCallBreaks kinds.now frame.old) (λ vs. CallsStatic kinds.now frame.old vs.items frame.new)) }
    ensures within { (count : ℕ) → IsFrameWithin count frame.old → IsFrameWithin count frame.new }
    ensures settled { IfOk result (λ o. IfSome o (λ vs. AreSettledIn frame.old.operands vs.items)) }
    ensures err { OnErr result (frame.new ≡ frame.old) }
    ensures popped { IfOk result (λ o. IfSome o (λ vs. IsTaken frame.old (reverse vs.items) frame.new)) }
{
    pop_arguments(alloc, &mut frame.operands, kinds)
}

// What a method may be called on.
fn pop_receiver(operands: &mut Operands) -> Option<Receiver>
    ensures room { operands.new.room ≡ operands.old.room }
    ensures taken { MatchOption result (LacksReceiver operands.old) (λ receiver. PopsReceiver operands.old receiver operands.new) }
    ensures known { IfSome result (λ receiver. IsKnownReceiver operands.old receiver) }
    ensures within { StaysKnown operands.old operands.new }
    ensures popped { IfSome result (λ receiver. TakesAll operands.old (receiver_value receiver ∷ []) operands.new) }
{
    match pop(operands)? {
        Value::Null => Some(Receiver::Object(None)),
        Value::Reference(at) => Some(Receiver::Object(Some(at))),
        Value::Token(class, number) => Some(Receiver::Announced(class, number)),
        _ => None,
    }
}

/// The receiver and the arguments of a method whose parameters have these kinds (JVMS 6,
/// `invokespecial`, `invokevirtual` and `invokeinterface`), taken from the operands. None: the run is
/// Broken.
///
/// # Errors
/// Where there is no memory; the frame is as it was then.
pub fn call_on(alloc: Global, frame: &mut Frame, kinds: &[Kind]) -> Result<Option<Call>, AllocError>
    ensures rest { frame.new ≡ record frame.old { operands = frame.new.operands } }
    ensures room { frame.new.operands.room ≡ frame.old.operands.room }
    ensures taken { IfOk result (λ o. MatchOption o (CallBreaks kinds.now frame.old) (λ call. CallsOn kinds.now frame.old call.receiver call.arguments.items frame.new)) }
    ensures within { (count : ℕ) → IsFrameWithin count frame.old → IsFrameWithin count frame.new }
    ensures settled { IfOk result (λ o. IfSome o (λ call. AreSettledIn frame.old.operands call.arguments.items)) }
    ensures known { IfOk result (λ o. IfSome o (λ call. IsKnownReceiver frame.old.operands call.receiver)) }
    ensures err { OnErr result (frame.new ≡ frame.old) }
    ensures popped { IfOk result (λ o. IfSome o (λ call. IsTaken frame.old (reverse call.arguments.items ++ receiver_value call.receiver ∷ []) frame.new)) }
{
    let Some(arguments) = pop_arguments(alloc, &mut frame.operands, kinds)? else {
        return Ok(None)
    };
    match pop_receiver(&mut frame.operands) {
        Some(receiver) => Ok(Some(Call {
            receiver,
            arguments,
        })),
        None => Ok(None),
    }
}
