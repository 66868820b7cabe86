//! Pops from the operands and pushes on them (JVMS 3.6.2).
#![tactic(auto, using(crate::proofs::Known::still_known, crate::proofs::Known::known_before))]

ghost use Rattle.std.specs.Prelude.{◌≡◌, ℕ, true, [], ◌∷◌, reverse, MatchOption, IfSome};
ghost use Rattle.std.specs.Bool.{MatchBool};
ghost use Rattle.class_machine.specs.Effect as definition;
ghost use Rattle.class_machine.specs.Values.{has_room, kind_width};
ghost use Rattle.class_machine.specs.Values as machine;
ghost use Rattle.machine_values.specs.declared.values.Value.TheVariants as values;
ghost use Rattle.machine_frames.specs.Naming.{Naming, values as values_of};
ghost use Rattle.machine_frames.specs.Operands.{Pushes, Overflows, LacksInt, LacksLong, PopsReference, LacksReference, PopsKind, LacksKind, PopsNarrow, LacksNarrow, PopsSlots, LacksSlots, Puts, LacksRoom, PushesOn, Works, IsFree, StaysKnown, PushesKnown, PutsKnown, IsKnownReference, IsSettledValue, IsKnownValue, AreKnownIn};
ghost use Rattle.machine_frames.specs.Undoing.{reference_value, TakesAll, is_plain};
ghost use Rattle.machine_values.specs.Stacks.{Stack};

use crate::effect::Effect;
use crate::kinds::{is_of, kind_width};
use class_machine::kinds::{Kind, Slots};
use machine_values::{Operands, Ref, Value};

/// The values in up to two slots, the topmost first.
#[derive(Clone, Copy)]
pub enum Group {
    Zero,
    One(Value),
    Two(Value, Value),
}

/// Puts the value on top, and says whether there was room.
#[tactic(auto, using(crate::proofs::Pushing::pushes, crate::proofs::Pushing::overflows))]
pub fn push(operands: &mut Operands, held: Value) -> bool
    ensures room { operands.new.room ≡ operands.old.room }
    ensures pushed { MatchBool result (Pushes operands.old held operands.new) (Overflows operands.old held) }
    ensures within { PushesKnown operands.old held operands.new }
{
    operands.push(held)
}

/// Puts the value on top, and goes on at the next place.
pub fn push_on(operands: &mut Operands, held: Value) -> Effect
    ensures room { operands.new.room ≡ operands.old.room }
    ensures done { PushesOn operands.old held operands.new result }
    ensures within { PushesKnown operands.old held operands.new }
    ensures known { IsFree result }
    ensures plain { is_plain result ≡ true }
{
    if push(operands, held) {
        Effect::On
    } else {
        Effect::Broken
    }
}

/// Puts an int on top, and goes on at the next place.
pub fn push_int(operands: &mut Operands, n: i32) -> Effect
    ensures room { operands.new.room ≡ operands.old.room }
    ensures done { Works operands.old operands.new result (λ s ops ls. definition.push_on s.room (machine.Plain (machine.Int n)) ops ls) }
    ensures within { StaysKnown operands.old operands.new }
    ensures known { IsFree result }
    ensures plain { is_plain result ≡ true }
{
    push_on(operands, Value::Int(n))
}

/// Puts a long on top, and goes on at the next place.
pub fn push_long(operands: &mut Operands, n: i64) -> Effect
    ensures room { operands.new.room ≡ operands.old.room }
    ensures done { Works operands.old operands.new result (λ s ops ls. definition.push_on s.room (machine.Plain (machine.Long n)) ops ls) }
    ensures within { StaysKnown operands.old operands.new }
    ensures known { IsFree result }
    ensures plain { is_plain result ≡ true }
{
    push_on(operands, Value::Long(n))
}

/// Takes the topmost value, if there is one.
pub fn pop(operands: &mut Operands) -> Option<Value>
    ensures room { operands.new.room ≡ operands.old.room }
    ensures popped { MatchOption result ((operands.old.values ≡ []) × (operands.new.values ≡ [])) (λ v. operands.old.values ≡ v ∷ operands.new.values) }
    ensures within { StaysKnown operands.old operands.new }
    ensures known { IfSome result (λ v. IsKnownValue operands.old v) }
    ensures taken { IfSome result (λ v. TakesAll operands.old (v ∷ []) operands.new) }
{
    operands.pop()
}

pub fn pop_int(operands: &mut Operands) -> Option<i32>
    ensures room { operands.new.room ≡ operands.old.room }
    ensures popped { MatchOption result (LacksInt operands.old) (λ k. operands.old.values ≡ values.Int k ∷ operands.new.values) }
    ensures within { StaysKnown operands.old operands.new }
    ensures taken { IfSome result (λ k. TakesAll operands.old (values.Int k ∷ []) operands.new) }
{
    match pop(operands)? {
        Value::Int(n) => Some(n),
        _ => None,
    }
}

pub fn pop_long(operands: &mut Operands) -> Option<i64>
    ensures room { operands.new.room ≡ operands.old.room }
    ensures popped { MatchOption result (LacksLong operands.old) (λ k. operands.old.values ≡ values.Long k ∷ operands.new.values) }
    ensures within { StaysKnown operands.old operands.new }
    ensures taken { IfSome result (λ k. TakesAll operands.old (values.Long k ∷ []) operands.new) }
{
    match pop(operands)? {
        Value::Long(n) => Some(n),
        _ => None,
    }
}

/// A reference that may be null, and no token.
pub fn pop_reference(operands: &mut Operands) -> Option<Option<Ref>>
    ensures room { operands.new.room ≡ operands.old.room }
    ensures popped { MatchOption result (LacksReference operands.old) (λ a. PopsReference operands.old a operands.new) }
    ensures within { StaysKnown operands.old operands.new }
    ensures known { IfSome result (λ a. IsKnownReference operands.old a) }
    ensures taken { IfSome result (λ a. TakesAll operands.old (reference_value a ∷ []) operands.new) }
{
    match pop(operands)? {
        Value::Null => Some(None),
        Value::Reference(at) => Some(Some(at)),
        _ => None,
    }
}

/// A plain value of the kind.
#[tactic(auto, using(crate::proofs::Known::still_known, crate::proofs::Kinded::takes, crate::proofs::Kinded::refuses, crate::proofs::Kinded::settles))]
pub fn pop_kind(operands: &mut Operands, kind: Kind) -> Option<Value>
    ensures room { operands.new.room ≡ operands.old.room }
    ensures popped { MatchOption result (LacksKind kind operands.old) (λ v. PopsKind kind operands.old v operands.new) }
    ensures within { StaysKnown operands.old operands.new }
    ensures known { IfSome result (λ v. IsSettledValue operands.old v) }
    ensures taken { IfSome result (λ v. TakesAll operands.old (v ∷ []) operands.new) }
{
    let held = pop(operands)?;
    if is_of(kind, &held) { Some(held) } else { None }
}

/// A value that takes one slot.
pub fn pop_narrow(operands: &mut Operands) -> Option<Value>
    ensures room { operands.new.room ≡ operands.old.room }
    ensures popped { MatchOption result (LacksNarrow operands.old) (λ v. PopsNarrow operands.old v operands.new) }
    ensures within { StaysKnown operands.old operands.new }
    ensures known { IfSome result (λ v. IsKnownValue operands.old v) }
{
    let held = pop(operands)?;
    if held.is_wide() { None } else { Some(held) }
}

/// The values in so many slots. A long or double isn't split.
pub fn pop_slots(operands: &mut Operands, slots: Slots) -> Option<Group>
    ensures room { operands.new.room ≡ operands.old.room }
    ensures popped { MatchOption result (LacksSlots slots operands.old) (λ g. PopsSlots slots operands.old g operands.new) }
    ensures within { StaysKnown operands.old operands.new }
    ensures known { IfSome result (λ g. AreKnownIn operands.old g) }
{
    match slots {
        Slots::Zero => Some(Group::Zero),
        Slots::One => Some(Group::One(pop_narrow(operands)?)),
        Slots::Two => pop_two(operands),
    }
}

/// A long or double, or two values of one slot.
fn pop_two(operands: &mut Operands) -> Option<Group>
    ensures room { operands.new.room ≡ operands.old.room }
    ensures popped { MatchOption result (LacksSlots Slots.Two operands.old) (λ g. PopsSlots Slots.Two operands.old g operands.new) }
    ensures within { StaysKnown operands.old operands.new }
    ensures known { IfSome result (λ g. AreKnownIn operands.old g) }
{
    let held = pop(operands)?;
    if held.is_wide() {
        return Some(Group::One(held));
    }
    Some(Group::Two(held, pop_narrow(operands)?))
}

/// Puts the values on top, and says whether there was room.
pub fn put(operands: &mut Operands, group: Group) -> bool
    ensures room { operands.new.room ≡ operands.old.room }
    ensures put { MatchBool result (Puts operands.old group operands.new) (LacksRoom operands.old group) }
    ensures within { PutsKnown operands.old group operands.new }
{
    match group {
        Group::Zero => true,
        Group::One(held) => push(operands, held),
        Group::Two(held, below) => {
            if !push(operands, below) {
                return false;
            }
            push(operands, held)
        }
    }
}

/// Whether there is room for a value of the kind.
#[tactic(auto, using(crate::proofs::Pushing::rooms))]
pub fn has_room(operands: &Operands, kind: Kind) -> bool
    ensures { (n : Naming) (method : ℕ) → result ≡ has_room operands.now.room (kind_width kind) (values_of n method operands.now.values) }
{
    operands.has_room(kind_width(kind))
}

/// A reference as a value.
pub fn reference_value(object: Option<Ref>) -> Value
    ensures { result ≡ reference_value object }
{
    match object {
        Some(at) => Value::Reference(at),
        None => Value::Null,
    }
}

/// Puts values back that were taken, the last one topmost.
pub fn put_all_back(operands: &mut Operands, taken: &[Value])
    ensures room { operands.new.room ≡ operands.old.room }
    ensures put { (s : Stack) → TakesAll s (reverse taken.now) operands.old → operands.new ≡ s }
{
    for held in taken {
        let _there_was_room = operands.push(*held);
    }
}
