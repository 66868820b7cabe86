//! On what a call is, seen while nothing is taken yet.

ghost use Rattle.std.specs.Prelude.{◌≡◌};
ghost use Rattle.machine_steps.specs.Parts.{is_special};
ghost use Rattle.machine_invokes.specs.Peeking.{object_in, object_below, receiver_in};

use class_machine::kinds::Mode;
use machine_code::parameter_count;
use machine_values::{Frame, Ref, Value};

fn object_in(held: &Value) -> Option<Ref>
    ensures { result ≡ object_in held.now }
{
    match held {
        Value::Reference(at) => Some(*at),
        _ => None,
    }
}

// What lies below so many arguments, where that is an object.
fn object_below(frame: &Frame, arguments: usize) -> Option<Ref>
    ensures { result ≡ object_below arguments frame.now }
{
    let operands = frame.operands.as_slice();
    if operands.len() <= arguments {
        return None;
    }
    match operands.get(operands.len() - 1 - arguments) {
        Some(held) => object_in(held),
        None => None,
    }
}

/// Whether it is `invokespecial`.
pub(crate) fn is_special(mode: Mode) -> bool
    ensures { result ≡ is_special mode }
{
    matches!(mode, Mode::Special)
}

/// The object below the arguments of a call of a method of the descriptor, if it is called on one
/// (JVMS 3.11.8).
pub(crate) fn receiver_of(frame: &Frame, mode: Mode, descriptor: &[u8]) -> Option<Ref>
    ensures { result ≡ receiver_in mode descriptor.now frame.now }
{
    match mode {
        Mode::Static => None,
        _ => object_below(frame, parameter_count(descriptor)),
    }
}
