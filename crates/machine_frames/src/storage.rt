//! Loads, stores, increments and returns from subroutines (JVMS 3.11.2, 3.11.7).

ghost use Rattle.std.specs.Prelude.{◌≡◌, ℕ, List, true, false, length};
ghost use Rattle.class_machine.specs.Effect as definition;
ghost use Rattle.class_machine.specs.Values as machine;
ghost use Rattle.class_machine.specs.ClassFiles.{Place};
ghost use Rattle.machine_frames.specs.Naming.{Naming, values, locals as named};
ghost use Rattle.machine_frames.specs.Effects.{effect_in, raises, AreKnown, AreKnownLocals};
ghost use Rattle.machine_frames.specs.Operands.{IsFree};
ghost use Rattle.machine_frames.specs.Undoing.{is_plain};

use crate::effect::Effect;
use crate::kinds::{loads, stores};
use crate::locals::{read_local, write_local};
use crate::operands::{pop, push_on};
use class_machine::kinds::Kind;
use machine_values::{Locals, Operands, Value};

/// Pushes what the local holds (JVMS 6, `iload` and its kin).
pub fn load(operands: &mut Operands, locals: &Locals, kind: Kind, index: u16) -> Effect
    ensures room { operands.new.room ≡ operands.old.room }
    ensures done { (n : Naming) (method : ℕ) → effect_in n method result (values n method operands.new.values) (named n method locals.now) ≡ definition.load operands.old.room kind index (values n method operands.old.values) (named n method locals.now) }
    ensures within { (count : ℕ) → AreKnown count operands.old.values → AreKnownLocals count locals.now → AreKnown count operands.new.values }
    ensures known { IsFree result }
    ensures plain { is_plain result ≡ true }
{
    let Some(held) = read_local(locals, index) else {
        return Effect::Broken
    };
    if !loads(kind, &held) {
        return Effect::Broken;
    }
    push_on(operands, held)
}

/// Stores the topmost value in the local (JVMS 6, `istore` and its kin).
pub fn store(operands: &mut Operands, locals: &mut Locals, kind: Kind, index: u16) -> Effect
    ensures room { operands.new.room ≡ operands.old.room }
    ensures count { length locals.new ≡ length locals.old }
    ensures done { (n : Naming) (method : ℕ) → effect_in n method result (values n method operands.new.values) (named n method locals.new) ≡ definition.store kind index (values n method operands.old.values) (named n method locals.old) }
    ensures within { (count : ℕ) → AreKnown count operands.old.values → AreKnown count operands.new.values }
    ensures locals_within { (count : ℕ) → AreKnown count operands.old.values → AreKnownLocals count locals.old → AreKnownLocals count locals.new }
    ensures known { IsFree result }
    ensures calm { raises result ≡ false }
    ensures plain { is_plain result ≡ true }
{
    let Some(held) = pop(operands) else {
        return Effect::Broken
    };
    if !stores(kind, &held) {
        return Effect::Broken;
    }
    if write_local(locals, index, held) {
        Effect::On
    } else {
        Effect::Broken
    }
}

/// Adds to the int that the local holds (JVMS 6, `iinc`).
pub fn increment(locals: &mut Locals, index: u16, by: i16) -> Effect
    ensures count { length locals.new ≡ length locals.old }
    ensures done { (n : Naming) (method : ℕ) (ops : List (machine.Value Place)) → effect_in n method result ops (named n method locals.new) ≡ definition.increment index by ops (named n method locals.old) }
    ensures within { (count : ℕ) → AreKnownLocals count locals.old → AreKnownLocals count locals.new }
    ensures known { IsFree result }
    ensures calm { raises result ≡ false }
    ensures plain { is_plain result ≡ true }
{
    let Some(Value::Int(n)) = read_local(locals, index) else {
        return Effect::Broken
    };
    if write_local(locals, index, Value::Int(n.wrapping_add(by as i32))) {
        Effect::On
    } else {
        Effect::Broken
    }
}

/// To the return address that the local holds (JVMS 6, `ret`).
pub fn go_back(locals: &Locals, index: u16) -> Effect
    ensures done { (n : Naming) (method : ℕ) (ops : List (machine.Value Place)) → effect_in n method result ops (named n method locals.now) ≡ definition.go_back index ops (named n method locals.now) }
    ensures known { IsFree result }
    ensures plain { is_plain result ≡ true }
{
    match read_local(locals, index) {
        Some(Value::ReturnAddress(pc)) => Effect::Back(pc),
        _ => Effect::Broken,
    }
}
