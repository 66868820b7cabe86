//! What instructions that name something take from their frame (JVMS 3.11.5, 3.11.7). What they name
//! is found elsewhere, and so is what comes of it.

ghost use Rattle.std.specs.Prelude.{◌≡◌, ℕ, true, [], ◌∷◌, MatchOption, IfSome};
ghost use Rattle.class_machine.specs.Effect as definition;
ghost use Rattle.class_machine.specs.Values.{has_room, kind_width};
ghost use Rattle.class_machine.specs.declared.kinds.Access.TheVariants as Access;
ghost use Rattle.machine_values.specs.Standing.{is_settled};
ghost use Rattle.machine_values.specs.States.{is_known_object, IsFrameWithin};
ghost use Rattle.machine_frames.specs.Naming.{Naming, held};
ghost use Rattle.machine_frames.specs.Effects.{Does, operands_of};
ghost use Rattle.machine_frames.specs.Named.{SwitchBreaks, Switches, QuestionBreaks, Questions, AccessBreaks, GetsField, PutsStatic, PutsField};
ghost use Rattle.machine_frames.specs.Undoing.{reference_value, IsTaken};

use crate::effect::Effect;
use crate::operands;
use class_machine::kinds::Kind;
use machine_values::{Frame, Ref, Value};

/// The int that selects a target (JVMS 6, `tableswitch` and `lookupswitch`), taken from the operands.
/// None: the run is Broken.
pub fn switch(frame: &mut Frame) -> Option<i32>
    ensures rest { frame.new ≡ record frame.old { operands = frame.new.operands } }
    ensures room { frame.new.operands.room ≡ frame.old.operands.room }
    ensures taken { MatchOption result (SwitchBreaks frame.old) (λ x. Switches frame.old x frame.new) }
    ensures within { (count : ℕ) → IsFrameWithin count frame.old → IsFrameWithin count frame.new }
{
    operands::pop_int(&mut frame.operands)
}

/// The object that `checkcast`, `instanceof` and their kin ask about, taken from the operands. None:
/// the run is Broken.
pub fn pop_object(frame: &mut Frame) -> Option<Option<Ref>>
    ensures rest { frame.new ≡ record frame.old { operands = frame.new.operands } }
    ensures room { frame.new.operands.room ≡ frame.old.operands.room }
    ensures taken { MatchOption result (QuestionBreaks frame.old) (λ a. Questions frame.old a frame.new) }
    ensures within { (count : ℕ) → IsFrameWithin count frame.old → IsFrameWithin count frame.new }
    ensures known { IfSome result (λ a. (count : ℕ) → IsFrameWithin count frame.old → is_known_object count a ≡ true) }
    ensures popped { IfSome result (λ a. IsTaken frame.old (reference_value a ∷ []) frame.new) }
{
    operands::pop_reference(&mut frame.operands)
}

/// Whether there is room for a value of the kind, as `getstatic`, `new` and `ldc` of a class want it.
pub fn room_for(frame: &Frame, kind: Kind) -> bool
    ensures { (n : Naming) → result ≡ has_room frame.now.operands.room (kind_width kind) (operands_of n frame.now) }
{
    operands::has_room(&frame.operands, kind)
}

/// Pushes a plain value (JVMS 6, `ldc` of a string).
pub fn push_constant(frame: &mut Frame, value: Value) -> Effect
    ensures rest { frame.new ≡ record frame.old { operands = frame.new.operands } }
    ensures room { frame.new.operands.room ≡ frame.old.operands.room }
    ensures done { (n : Naming) (count : ℕ) → is_settled count value ≡ true → Does n (definition.constant frame.old.operands.room (held n value)) frame.old frame.new result }
    ensures within { (count : ℕ) → is_settled count value ≡ true → IsFrameWithin count frame.old → IsFrameWithin count frame.new }
{
    operands::push_on(&mut frame.operands, value)
}

/// The object whose field of the kind is read (JVMS 6, `getfield`), taken from the operands; there is
/// room for the field then. None: the run is Broken.
pub fn get_field(frame: &mut Frame, kind: Kind) -> Option<Option<Ref>>
    ensures rest { frame.new ≡ record frame.old { operands = frame.new.operands } }
    ensures room { frame.new.operands.room ≡ frame.old.operands.room }
    ensures taken { MatchOption result (AccessBreaks Access.GetField kind frame.old) (λ a. GetsField kind frame.old a frame.new) }
    ensures within { (count : ℕ) → IsFrameWithin count frame.old → IsFrameWithin count frame.new }
    ensures known { IfSome result (λ a. (count : ℕ) → IsFrameWithin count frame.old → is_known_object count a ≡ true) }
    ensures popped { IfSome result (λ a. IsTaken frame.old (reference_value a ∷ []) frame.new) }
{
    let object = operands::pop_reference(&mut frame.operands)?;
    if operands::has_room(&frame.operands, kind) {
        Some(object)
    } else {
        None
    }
}

/// The value that a static field of the kind gets (JVMS 6, `putstatic`), taken from the operands.
/// None: the run is Broken.
pub fn put_static(frame: &mut Frame, kind: Kind) -> Option<Value>
    ensures rest { frame.new ≡ record frame.old { operands = frame.new.operands } }
    ensures room { frame.new.operands.room ≡ frame.old.operands.room }
    ensures taken { MatchOption result (AccessBreaks Access.PutStatic kind frame.old) (λ v. PutsStatic kind frame.old v frame.new) }
    ensures within { (count : ℕ) → IsFrameWithin count frame.old → IsFrameWithin count frame.new }
    ensures known { IfSome result (λ v. (count : ℕ) → IsFrameWithin count frame.old → is_settled count v ≡ true) }
    ensures popped { IfSome result (λ v. IsTaken frame.old (v ∷ []) frame.new) }
{
    operands::pop_kind(&mut frame.operands, kind)
}

/// What `putfield` is to write.
#[derive(Clone, Copy)]
pub struct Written {
    pub object: Option<Ref>,
    pub value: Value,
}

/// The object and the value that its field of the kind gets (JVMS 6, `putfield`), taken from the
/// operands. None: the run is Broken.
pub fn put_field(frame: &mut Frame, kind: Kind) -> Option<Written>
    ensures rest { frame.new ≡ record frame.old { operands = frame.new.operands } }
    ensures room { frame.new.operands.room ≡ frame.old.operands.room }
    ensures taken { MatchOption result (AccessBreaks Access.PutField kind frame.old) (λ w. PutsField kind frame.old w.object w.value frame.new) }
    ensures within { (count : ℕ) → IsFrameWithin count frame.old → IsFrameWithin count frame.new }
    ensures known { IfSome result (λ w. (count : ℕ) → IsFrameWithin count frame.old → is_known_object count w.object ≡ true) }
    ensures settled { IfSome result (λ w. (count : ℕ) → IsFrameWithin count frame.old → is_settled count w.value ≡ true) }
    ensures popped { IfSome result (λ w. IsTaken frame.old (w.value ∷ reference_value w.object ∷ []) frame.new) }
{
    let value = operands::pop_kind(&mut frame.operands, kind)?;
    let object = operands::pop_reference(&mut frame.operands)?;
    Some(Written { object, value })
}
