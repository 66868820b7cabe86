//! Moves among the operands (JVMS 3.11.6).
#![tactic(auto, using(crate::proofs::Known::still_known, crate::proofs::Known::known_before, crate::proofs::Known::pushed, crate::proofs::Known::put, crate::proofs::Known::group_before))]

ghost use Rattle.std.specs.Prelude.{◌≡◌, ℕ, true};
ghost use Rattle.class_machine.specs.Effect as definition;
ghost use Rattle.machine_frames.specs.Operands.{Works, StaysKnown, IsFree};
ghost use Rattle.machine_frames.specs.Undoing.{is_plain};

use crate::effect::Effect;
use crate::operands::{pop_narrow, pop_slots, push, push_int, push_long, push_on, put};
use class_machine::kinds::{Constant, Slots};
use machine_values::{Operands, Value};

/// Pushes the constant (JVMS 3.11.2).
pub fn constant(operands: &mut Operands, constant: Constant) -> Effect
    ensures room { operands.new.room ≡ operands.old.room }
    ensures done { Works operands.old operands.new result (λ s ops ls. definition.constant s.room (definition.held_constant constant) ops ls) }
    ensures within { StaysKnown operands.old operands.new }
    ensures known { IsFree result }
    ensures plain { is_plain result ≡ true }
{
    match constant {
        Constant::Null => push_on(operands, Value::Null),
        Constant::Int(n) => push_int(operands, n),
        Constant::Long(n) => push_long(operands, n),
        Constant::Float(bits) => push_on(operands, Value::Float(bits)),
        Constant::Double(bits) => push_on(operands, Value::Double(bits)),
    }
}

/// Takes away the topmost slots (JVMS 6, `pop` and `pop2`).
pub fn drop_slots(operands: &mut Operands, slots: Slots) -> Effect
    ensures room { operands.new.room ≡ operands.old.room }
    ensures done { Works operands.old operands.new result (λ s ops ls. definition.drop_slots slots ops ls) }
    ensures within { StaysKnown operands.old operands.new }
    ensures known { IsFree result }
    ensures plain { is_plain result ≡ true }
{
    match pop_slots(operands, slots) {
        Some(_) => Effect::On,
        None => Effect::Broken,
    }
}

/// Puts the topmost slots once more, below so many further ones (JVMS 6, `dup` to `dup2_x2`).
pub fn duplicate(operands: &mut Operands, slots: Slots, under: Slots) -> Effect
    ensures room { operands.new.room ≡ operands.old.room }
    ensures done { Works operands.old operands.new result (λ s ops ls. definition.duplicate s.room slots under ops ls) }
    ensures within { StaysKnown operands.old operands.new }
    ensures known { IsFree result }
    ensures plain { is_plain result ≡ true }
{
    let Some(top) = pop_slots(operands, slots) else {
        return Effect::Broken
    };
    let Some(below) = pop_slots(operands, under) else {
        return Effect::Broken
    };
    if !put(operands, top) {
        return Effect::Broken;
    }
    if !put(operands, below) {
        return Effect::Broken;
    }
    if put(operands, top) {
        Effect::On
    } else {
        Effect::Broken
    }
}

/// Exchanges the two topmost values, of one slot each (JVMS 6, `swap`).
pub fn exchange(operands: &mut Operands) -> Effect
    ensures room { operands.new.room ≡ operands.old.room }
    ensures done { Works operands.old operands.new result (λ s ops ls. definition.exchange s.room ops ls) }
    ensures within { StaysKnown operands.old operands.new }
    ensures known { IsFree result }
    ensures plain { is_plain result ≡ true }
{
    let Some(top) = pop_narrow(operands) else {
        return Effect::Broken
    };
    let Some(below) = pop_narrow(operands) else {
        return Effect::Broken
    };
    if !push(operands, top) {
        return Effect::Broken;
    }
    push_on(operands, below)
}
