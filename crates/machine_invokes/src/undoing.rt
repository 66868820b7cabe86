//! The frame that an invocation was taken from is as it was again, or the whole state.

ghost use Rattle.std.specs.Prelude.{◌≡◌, ◌<◌, [], length};
ghost use Rattle.machine_values.specs.declared.frames.Frame.{Frame as FrameOf};
ghost use Rattle.machine_values.specs.declared.state.MachineState.{MachineState as StateOf};
ghost use Rattle.machine_frames.specs.Undoing.{reference_value};
ghost use Rattle.machine_invocations.specs.Keeping.{IsSame};
ghost use Rattle.machine_invokes.specs.Undoing.{CanUndo, ForgetsLast, IsRefilled, Refills, RestoresFrame, TakesBack};

use crate::invocation::{Before, Invocation};
use crate::taking::put_arguments_back;
use machine_frames::put_back;
use machine_values::{Frame, Heap, Local, Locals, MachineState, Operands, Ref, Value};

// A reference as a value.
fn reference_value(object: Option<Ref>) -> Value
    ensures { result ≡ reference_value object }
{
    match object {
        Some(at) => Value::Reference(at),
        None => Value::Null,
    }
}

// Takes all operands away.
fn empty(operands: &mut Operands)
    ensures room { operands.new.room ≡ operands.old.room }
    ensures values { operands.new.values ≡ [] }
{
    'emptying: while let Some(_) = operands.pop() {}
}

// Gives each local its content.
fn put_locals(kept: &mut Locals, locals: &[Local])
    ensures { length locals.now ≡ length kept.old → kept.new ≡ locals.now }
{
    for index in 0..kept.len() {
        match locals.get(index as usize) {
            Some(local) => kept.set(index, *local),
            None => return,
        }
    }
}

// The frame holds these operands, of which the last is topmost, and these locals.
fn refill(frame: &mut Frame, operands: &[Value], locals: &[Local])
    ensures { (old : FrameOf) → IsRefilled operands.now locals.now old frame.old → frame.new ≡ old }
{
    empty(&mut frame.operands);
    put_locals(&mut frame.locals, locals);
    put_back(frame, operands);
}

// The same of the frame of that number.
fn refill_at(state: &mut MachineState, index: usize, operands: &[Value], locals: &[Local])
    requires { index < length state.old.frames.items }
    ensures { Refills index operands.now locals.now state.old state.new }
{
    refill(&mut state.frames[index], operands, locals);
}

/// The frame of that number holds again what it held before the invocation, whatever frames were put on
/// top since.
pub fn restore_frame(state: &mut MachineState, index: usize, call: &Invocation)
    requires { index < length state.old.frames.items }
    ensures { RestoresFrame index call.now state.old state.new }
{
    match &call.before {
        Before::Arguments(_saved) => put_arguments_back(state, index, call.arguments.as_slice()),
        Before::Receiver => {
            put_arguments_back(state, index, &[reference_value(call.receiver)]);
            put_arguments_back(state, index, call.arguments.as_slice());
        }
        Before::Token(class, number, operands, locals) => {
            refill_at(state, index, operands.as_slice(), locals.as_slice());
            put_arguments_back(state, index, &[Value::Token(*class, *number)]);
            put_arguments_back(state, index, call.arguments.as_slice());
        }
    }
}

// The last object is forgotten.
fn forget_last(heap: &mut Heap)
    ensures { ForgetsLast heap.old heap.new }
{
    let count = heap.count();
    if count > 0 {
        heap.truncate(count - 1);
    }
}

// The classes that were marked are as they were, and the object that was made is forgotten.
fn take_back(state: &mut MachineState, before: Before)
    ensures { TakesBack state.old state.new before }
{
    match before {
        Before::Arguments(None) | Before::Receiver => {}
        Before::Arguments(Some(begun)) => state.begun = begun,
        Before::Token(_, _, _, _) => forget_last(&mut state.heap),
    }
}

/// The state is again what it was before the invocation, where nothing was done since.
pub fn undo(state: &mut MachineState, call: Invocation)
    requires { 0 < length state.old.frames.items }
    ensures { (before after : StateOf) → CanUndo before after call → IsSame after state.old → IsSame before state.new }
{
    let top = state.frames.len() - 1;
    restore_frame(state, top, &call);
    take_back(state, call.before);
}
