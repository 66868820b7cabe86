//! Arithmetic of ints and longs (JVMS 3.11.3, 3.11.4).
#![tactic(auto, using(crate::proofs::Known::still_known, crate::proofs::Undone::plain_on))]

ghost use Rattle.std.specs.Prelude.{◌≡◌, ℕ, true};
ghost use Rattle.class_machine.specs.Effect as definition;
ghost use Rattle.machine_frames.specs.Operands.{Works, StaysKnown, IsFree};
ghost use Rattle.machine_frames.specs.Undoing.{UndoesOn, is_plain};

use crate::effect::Effect;
use crate::numbers::{
    compare_longs, int_binary, int_divide, int_shift, int_to_byte, int_to_char, int_to_short,
    long_binary, long_divide, long_shift, long_to_int,
};
use crate::operands::{has_room, pop_int, pop_kind, pop_long, push_int, push_long, put_all_back};
use class_machine::kinds::{Binary, Conversion, Division, Fault, Kind, Shift};
use machine_values::{Operands, Value};

/// The sum, difference, product or bits of two ints.
pub fn binary_of_ints(operands: &mut Operands, op: Binary) -> Effect
    ensures room { operands.new.room ≡ operands.old.room }
    ensures done { Works operands.old operands.new result (λ s ops ls. definition.int_binary s.room op ops ls) }
    ensures within { StaysKnown operands.old operands.new }
    ensures known { IsFree result }
    ensures plain { is_plain result ≡ true }
{
    let Some(y) = pop_int(operands) else {
        return Effect::Broken
    };
    let Some(x) = pop_int(operands) else {
        return Effect::Broken
    };
    push_int(operands, int_binary(op, x, y))
}

/// The sum, difference, product or bits of two longs.
pub fn binary_of_longs(operands: &mut Operands, op: Binary) -> Effect
    ensures room { operands.new.room ≡ operands.old.room }
    ensures done { Works operands.old operands.new result (λ s ops ls. definition.long_binary s.room op ops ls) }
    ensures within { StaysKnown operands.old operands.new }
    ensures known { IsFree result }
    ensures plain { is_plain result ≡ true }
{
    let Some(y) = pop_long(operands) else {
        return Effect::Broken
    };
    let Some(x) = pop_long(operands) else {
        return Effect::Broken
    };
    push_long(operands, long_binary(op, x, y))
}

/// A quotient or rest of two ints (JVMS 6, `idiv` and `irem`).
pub fn divide_ints(operands: &mut Operands, op: Division) -> Effect
    ensures room { operands.new.room ≡ operands.old.room }
    ensures done { Works operands.old operands.new result (λ s ops ls. definition.int_divide s.room op ops ls) }
    ensures within { StaysKnown operands.old operands.new }
    ensures known { IsFree result }
    ensures undone { UndoesOn operands.old operands.new result }
{
    let Some(y) = pop_int(operands) else {
        return Effect::Broken
    };
    let Some(x) = pop_int(operands) else {
        return Effect::Broken
    };
    if y == 0 {
        put_all_back(operands, &[Value::Int(x), Value::Int(y)]);
        return Effect::Fail(Fault::Arithmetic);
    }
    push_int(operands, int_divide(op, x, y))
}

/// A quotient or rest of two longs (JVMS 6, `ldiv` and `lrem`).
pub fn divide_longs(operands: &mut Operands, op: Division) -> Effect
    ensures room { operands.new.room ≡ operands.old.room }
    ensures done { Works operands.old operands.new result (λ s ops ls. definition.long_divide s.room op ops ls) }
    ensures within { StaysKnown operands.old operands.new }
    ensures known { IsFree result }
    ensures undone { UndoesOn operands.old operands.new result }
{
    let Some(y) = pop_long(operands) else {
        return Effect::Broken
    };
    let Some(x) = pop_long(operands) else {
        return Effect::Broken
    };
    if y == 0 {
        put_all_back(operands, &[Value::Long(x), Value::Long(y)]);
        return Effect::Fail(Fault::Arithmetic);
    }
    push_long(operands, long_divide(op, x, y))
}

/// The negative of an int.
pub fn negate_int(operands: &mut Operands) -> Effect
    ensures room { operands.new.room ≡ operands.old.room }
    ensures done { Works operands.old operands.new result (λ s ops ls. definition.int_negate s.room ops ls) }
    ensures within { StaysKnown operands.old operands.new }
    ensures known { IsFree result }
    ensures plain { is_plain result ≡ true }
{
    let Some(x) = pop_int(operands) else {
        return Effect::Broken
    };
    push_int(operands, x.wrapping_neg())
}

/// The negative of a long.
pub fn negate_long(operands: &mut Operands) -> Effect
    ensures room { operands.new.room ≡ operands.old.room }
    ensures done { Works operands.old operands.new result (λ s ops ls. definition.long_negate s.room ops ls) }
    ensures within { StaysKnown operands.old operands.new }
    ensures known { IsFree result }
    ensures plain { is_plain result ≡ true }
{
    let Some(x) = pop_long(operands) else {
        return Effect::Broken
    };
    push_long(operands, x.wrapping_neg())
}

/// An int shifted by the int on top (JVMS 6, `ishl` to `iushr`).
pub fn shift_int(operands: &mut Operands, op: Shift) -> Effect
    ensures room { operands.new.room ≡ operands.old.room }
    ensures done { Works operands.old operands.new result (λ s ops ls. definition.int_shift s.room op ops ls) }
    ensures within { StaysKnown operands.old operands.new }
    ensures known { IsFree result }
    ensures plain { is_plain result ≡ true }
{
    let Some(count) = pop_int(operands) else {
        return Effect::Broken
    };
    let Some(x) = pop_int(operands) else {
        return Effect::Broken
    };
    push_int(operands, int_shift(op, x, count))
}

/// A long shifted by the int on top (JVMS 6, `lshl` to `lushr`).
pub fn shift_long(operands: &mut Operands, op: Shift) -> Effect
    ensures room { operands.new.room ≡ operands.old.room }
    ensures done { Works operands.old operands.new result (λ s ops ls. definition.long_shift s.room op ops ls) }
    ensures within { StaysKnown operands.old operands.new }
    ensures known { IsFree result }
    ensures plain { is_plain result ≡ true }
{
    let Some(count) = pop_int(operands) else {
        return Effect::Broken
    };
    let Some(x) = pop_long(operands) else {
        return Effect::Broken
    };
    push_long(operands, long_shift(op, x, count))
}

/// A conversion among ints and longs (JVMS 3.11.4).
pub fn convert(operands: &mut Operands, conversion: Conversion) -> Effect
    ensures room { operands.new.room ≡ operands.old.room }
    ensures done { Works operands.old operands.new result (λ s ops ls. definition.convert s.room conversion ops ls) }
    ensures within { StaysKnown operands.old operands.new }
    ensures known { IsFree result }
    ensures plain { is_plain result ≡ true }
{
    if let Conversion::LongToInt = conversion {
        let Some(x) = pop_long(operands) else {
            return Effect::Broken
        };
        return push_int(operands, long_to_int(x));
    }
    let Some(x) = pop_int(operands) else {
        return Effect::Broken
    };
    match conversion {
        Conversion::IntToLong => push_long(operands, x as i64),
        Conversion::IntToByte => push_int(operands, int_to_byte(x)),
        Conversion::IntToChar => push_int(operands, int_to_char(x)),
        Conversion::IntToShort | Conversion::LongToInt => push_int(operands, int_to_short(x)),
    }
}

/// The comparison of two longs, as an int (JVMS 6, `lcmp`).
pub fn compare_long(operands: &mut Operands) -> Effect
    ensures room { operands.new.room ≡ operands.old.room }
    ensures done { Works operands.old operands.new result (λ s ops ls. definition.compare_long s.room ops ls) }
    ensures within { StaysKnown operands.old operands.new }
    ensures known { IsFree result }
    ensures plain { is_plain result ≡ true }
{
    let Some(y) = pop_long(operands) else {
        return Effect::Broken
    };
    let Some(x) = pop_long(operands) else {
        return Effect::Broken
    };
    push_int(operands, compare_longs(x, y))
}

/// What computes with floating-point numbers: the values are taken, and there is room for a result.
pub fn unmodelled(operands: &mut Operands, op: u8, from: Kind, both: bool, to: Kind) -> Effect
    ensures room { operands.new.room ≡ operands.old.room }
    ensures done { Works operands.old operands.new result (λ s ops ls. definition.unmodelled s.room op from both to ops) }
    ensures within { StaysKnown operands.old operands.new }
    ensures known { IsFree result }
    ensures plain { is_plain result ≡ true }
{
    let Some(_) = pop_kind(operands, from) else {
        return Effect::Broken
    };
    if both {
        let Some(_) = pop_kind(operands, from) else {
            return Effect::Broken
        };
        return if has_room(operands, to) {
            Effect::Unmodelled(op)
        } else {
            Effect::Broken
        };
    }
    if has_room(operands, to) {
        Effect::Unmodelled(op)
    } else {
        Effect::Broken
    }
}
