//! What an instruction took is put back, where its step is refused for want of memory.

ghost use Rattle.std.specs.Prelude.{◌≡◌, [], ◌∷◌, ◌++◌, map, reverse};
ghost use Rattle.machine_values.specs.declared.frames.Frame.{Frame as FrameOf};
ghost use Rattle.machine_values.specs.declared.values.Value.TheVariants.{Int};
ghost use Rattle.machine_values.specs.Stacks.{Stack};
ghost use Rattle.machine_frames.specs.Undoing.{receiver_value, taken_by, IsTaken, TakesAll};

use crate::calls::{Call, Receiver};
use crate::effect::Request;
use crate::operands::{put_all_back, reference_value};
use machine_values::{Frame, Operands, Value};

/// Puts values back that were taken from the frame, the last one topmost.
pub fn put_back(frame: &mut Frame, taken: &[Value])
    ensures { (old : FrameOf) → IsTaken old (reverse taken.now) frame.old → frame.new ≡ old }
{
    put_all_back(&mut frame.operands, taken);
}

// Puts back what the instruction took for the request.
fn put_request_back(operands: &mut Operands, request: &Request)
    ensures { (s : Stack) → TakesAll s (taken_by request.now) operands.old → operands.new ≡ s }
{
    match *request {
        Request::MakeArray(_element, size) => put_all_back(operands, &[Value::Int(size)]),
        Request::ArrayLoad(_element, array, index) => {
            put_all_back(operands, &[reference_value(array), Value::Int(index)]);
        }
        Request::ArrayStore(_element, array, index, held) => {
            put_all_back(operands, &[reference_value(array), Value::Int(index), held]);
        }
        Request::ArrayLength(object)
        | Request::EnterMonitor(object)
        | Request::LeaveMonitor(object) => put_all_back(operands, &[reference_value(object)]),
    }
}

/// Puts back what the instruction took from the frame for the request.
pub fn restore(frame: &mut Frame, request: &Request)
    ensures { (old : FrameOf) → IsTaken old (taken_by request.now) frame.old → frame.new ≡ old }
{
    put_request_back(&mut frame.operands, request);
}

fn receiver_value(receiver: Receiver) -> Value
    ensures { result ≡ receiver_value receiver }
{
    match receiver {
        Receiver::Object(object) => reference_value(object),
        Receiver::Announced(class, number) => Value::Token(class, number),
    }
}

// Puts the receiver and the arguments back.
fn put_all_of_call_back(operands: &mut Operands, call: &Call)
    ensures { (s : Stack) → TakesAll s (reverse call.now.arguments.items ++ receiver_value call.now.receiver ∷ []) operands.old → operands.new ≡ s }
{
    let receiver = receiver_value(call.receiver);
    put_all_back(operands, &[receiver]);
    put_all_back(operands, call.arguments.as_slice());
}

/// Puts the receiver and the arguments of a call back.
pub fn put_call_back(frame: &mut Frame, call: &Call)
    ensures { (old : FrameOf) → IsTaken old (reverse call.now.arguments.items ++ receiver_value call.now.receiver ∷ []) frame.old → frame.new ≡ old }
{
    put_all_of_call_back(&mut frame.operands, call);
}

// Puts ints back, the last one topmost.
fn put_ints_back(operands: &mut Operands, taken: &[i32])
    ensures { (s : Stack) → TakesAll s (reverse (map Int taken.now)) operands.old → operands.new ≡ s }
{
    for size in taken {
        let _there_was_room = operands.push(Value::Int(*size));
    }
}

/// Puts the sizes of arrays back.
pub fn put_sizes_back(frame: &mut Frame, sizes: &[i32])
    ensures { (old : FrameOf) → IsTaken old (reverse (map Int sizes.now)) frame.old → frame.new ≡ old }
{
    put_ints_back(&mut frame.operands, sizes);
}
