//! What an instruction does to the running frame.

ghost use Rattle.std.specs.Prelude.{◌≡◌, ◌<◌, length};
ghost use Rattle.machine_frames.specs.Effects.{is_request_within, is_effect_within};
ghost use Rattle.machine_values.specs.Standing.{is_settled};
ghost use Rattle.machine_values.specs.States.{is_known_object};
ghost use Rattle.machine_basics.specs.Performed.{IsPerformed, Restores};

use class_machine::meaning::Basic;
use machine_frames::{Effect, Request, perform, restore};
use machine_values::{MachineState, Ref, Value};

/// Does what the instruction does to what the running frame holds. Its method's result plays no part
/// but in a return.
pub(crate) fn perform_running(state: &mut MachineState, basic: &Basic) -> Effect
    requires { 0 < length state.old.frames.items }
    ensures { IsPerformed state.old state.new basic.now result }
{
    let top = state.frames.len() - 1;
    perform(&mut state.frames[top], basic, None)
}

/// Puts back what the instruction took from the running frame, where the step is refused.
pub(crate) fn restore_running(state: &mut MachineState, effect: &Effect)
    requires { 0 < length state.old.frames.items }
    ensures { Restores state.old effect.now state.new }
{
    if let Effect::Ask(request) = effect {
        let top = state.frames.len() - 1;
        restore(&mut state.frames[top], request);
    }
}

// Whether it is null or one of the first so many objects.
fn is_known(object: Option<Ref>, count: usize) -> bool
    ensures { result ≡ is_known_object count object }
{
    match object {
        Some(at) => (at.0 as usize) < count,
        None => true,
    }
}

/// Whether the value may be held by fields and elements, where there are so many objects.
pub(crate) fn is_settled(value: Value, count: usize) -> bool
    ensures { result ≡ is_settled count value }
{
    match value {
        Value::Reference(at) => (at.0 as usize) < count,
        Value::Token(_, _) | Value::ReturnAddress(_) => false,
        _ => true,
    }
}

fn is_request_within(request: &Request, count: usize) -> bool
    ensures { result ≡ is_request_within count request.now }
{
    match *request {
        Request::MakeArray(_, _) => true,
        Request::ArrayStore(_, array, _, value) => {
            is_known(array, count) && is_settled(value, count)
        }
        Request::ArrayLoad(_, object, _)
        | Request::ArrayLength(object)
        | Request::EnterMonitor(object)
        | Request::LeaveMonitor(object) => is_known(object, count),
    }
}

/// Whether the effect refers to none but the first so many objects.
pub(crate) fn is_within(effect: &Effect, count: usize) -> bool
    ensures { result ≡ is_effect_within count effect.now }
{
    match effect {
        Effect::Ask(request) => is_request_within(request, count),
        Effect::Leave(Some(value)) => is_settled(*value, count),
        Effect::Throw(at) => (at.0 as usize) < count,
        _ => true,
    }
}
