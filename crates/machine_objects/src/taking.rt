//! What instructions take from the operands of the running frame, and how it is put back.

ghost use Rattle.std.specs.Prelude.{◌≡◌, ◌+◌, ℤ, [], ◌∷◌, List, ℕ, Option, true, length, reverse, MatchOption, IfSome, IsNone};
ghost use Rattle.class_file.specs.Pool.{Reference};
ghost use Rattle.class_machine.specs.Effect as definition;
ghost use Rattle.class_machine.specs.Values as machine;
ghost use Rattle.class_machine.specs.declared.kinds.Access.TheVariants as Access;
ghost use Rattle.class_world.specs.Tables.{Known};
ghost use Rattle.machine_frames.specs.Naming.{reference, held};
ghost use Rattle.machine_frames.specs.Undoing.{reference_value};
ghost use Rattle.machine_values.specs.declared.state.MachineState.{MachineState as StateOf};
ghost use Rattle.machine_values.specs.declared.values.Value.TheVariants.{Int};
ghost use Rattle.machine_values.specs.Standing.{is_settled, Settled};
ghost use Rattle.machine_values.specs.States.{is_known_object};
ghost use Rattle.machine_steps.specs.Runs.{IsFormed};
ghost use Rattle.machine_objects.specs.Taking.{Breaks, Takes, Switches, IsTakenFrom, access_form};

use class_machine::kinds::Kind;
use machine_frames::{Written, get_field, pop_object, pop_size, put_back, put_field, switch};
use machine_values::{Heap, MachineState, Ref, Value};

/// The number of the running frame.
pub(crate) fn top_of(state: &MachineState) -> Option<usize>
    ensures top { IfSome result (λ top. top + 1 ≡ length state.now.frames.items) }
    ensures none { IsNone result → length state.now.frames.items ≡ 0 }
{
    let count = state.frames.len();
    if count == 0 { None } else { Some(count - 1) }
}

/// Whether the object is there, or it is null.
pub(crate) fn is_there(heap: &Heap, object: Option<Ref>) -> bool
    ensures { result ≡ is_known_object (length heap.now.names) object }
{
    match object {
        Some(at) => (at.0 as usize) < heap.count(),
        None => true,
    }
}

/// Whether fields may hold the value.
pub(crate) fn is_settled(heap: &Heap, value: Value) -> bool
    ensures { result ≡ is_settled (length heap.now.names) value }
{
    match value {
        Value::Reference(at) => (at.0 as usize) < heap.count(),
        Value::Token(_, _) | Value::ReturnAddress(_) => false,
        _ => true,
    }
}

/// A reference as a value.
pub(crate) fn reference_value(object: Option<Ref>) -> Value
    ensures { result ≡ reference_value object }
{
    match object {
        Some(at) => Value::Reference(at),
        None => Value::Null,
    }
}

/// The object that `checkcast` and `instanceof` ask about. None: the run is Broken.
pub(crate) fn take_object(state: &mut MachineState) -> Option<Option<Ref>>
    ensures formed { (k : Known) → IsFormed k state.old → IsFormed k state.new }
    ensures taken { MatchOption result ((question : Option machine.Name → definition.Request) → Breaks (λ room. definition.ask_of question) state.old)
        (λ a. (question : Option machine.Name → definition.Request) → Takes (λ room. definition.ask_of question) (λ n. question (reference n a)) (reference_value a ∷ []) state.old state.new) }
    ensures known { IfSome result (λ a. is_known_object (length state.new.heap.names) a ≡ true) }
{
    let Some(top) = top_of(state) else {
        return None;
    };
    let Some(object) = pop_object(&mut state.frames[top]) else {
        return None;
    };
    if is_there(&state.heap, object) {
        Some(object)
    } else {
        None
    }
}

/// The object whose field of the kind is read. None: the run is Broken.
pub(crate) fn take_holder(state: &mut MachineState, kind: Kind) -> Option<Option<Ref>>
    ensures formed { (k : Known) → IsFormed k state.old → IsFormed k state.new }
    ensures taken { MatchOption result ((r : Reference) → Breaks (access_form Access.GetField r kind) state.old)
        (λ a. (r : Reference) → Takes (access_form Access.GetField r kind) (λ n. definition.GetField r (reference n a)) (reference_value a ∷ []) state.old state.new) }
    ensures known { IfSome result (λ a. is_known_object (length state.new.heap.names) a ≡ true) }
{
    let Some(top) = top_of(state) else {
        return None;
    };
    let Some(object) = get_field(&mut state.frames[top], kind) else {
        return None;
    };
    if is_there(&state.heap, object) {
        Some(object)
    } else {
        None
    }
}

/// The object and the value that its field of the kind gets. None: the run is Broken.
pub(crate) fn take_written(state: &mut MachineState, kind: Kind) -> Option<Written>
    ensures formed { (k : Known) → IsFormed k state.old → IsFormed k state.new }
    ensures taken { MatchOption result ((r : Reference) → Breaks (access_form Access.PutField r kind) state.old)
        (λ w. (r : Reference) → Takes (access_form Access.PutField r kind) (λ n. definition.PutField r (reference n w.object) (held n w.value)) (w.value ∷ reference_value w.object ∷ []) state.old state.new) }
    ensures known { IfSome result (λ w. is_known_object (length state.new.heap.names) w.object ≡ true) }
    ensures settled { IfSome result (λ w. Settled (length state.new.heap.names) w.value) }
{
    let Some(top) = top_of(state) else {
        return None;
    };
    let Some(written) = put_field(&mut state.frames[top], kind) else {
        return None;
    };
    if !is_there(&state.heap, written.object) {
        return None;
    }
    if is_settled(&state.heap, written.value) {
        Some(written)
    } else {
        None
    }
}

/// The size of a new array. None: the run is Broken.
pub(crate) fn take_size(state: &mut MachineState) -> Option<i32>
    ensures formed { (k : Known) → IsFormed k state.old → IsFormed k state.new }
    ensures taken { MatchOption result ((named : Option (List ℕ)) (type : List ℕ) → Breaks (λ room. definition.new_array named type 1) state.old)
        (λ x. (named : Option (List ℕ)) (type : List ℕ) → Takes (λ room. definition.new_array named type 1) (λ n. definition.MakeArray named type (x ∷ [])) (Int x ∷ []) state.old state.new) }
{
    let Some(top) = top_of(state) else {
        return None;
    };
    pop_size(&mut state.frames[top])
}

/// The int that selects a target. None: the run is Broken.
pub(crate) fn take_key(state: &mut MachineState) -> Option<i32>
    ensures formed { (k : Known) → IsFormed k state.old → IsFormed k state.new }
    ensures taken { MatchOption result ((keys : List ℤ) → Breaks (λ room. definition.switch keys) state.old) (λ x. Switches x state.old state.new) }
{
    let Some(top) = top_of(state) else {
        return None;
    };
    switch(&mut state.frames[top])
}

/// Puts values back that were taken from the running frame, the last one topmost.
pub(crate) fn restore(state: &mut MachineState, taken: &[Value])
    ensures { (before : StateOf) → IsTakenFrom (reverse taken.now) before state.old → state.new ≡ record state.old { frames = before.frames } }
{
    if let Some(top) = top_of(state) {
        put_back(&mut state.frames[top], taken);
    }
}
