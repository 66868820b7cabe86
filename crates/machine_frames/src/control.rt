//! Control transfer (JVMS 3.11.7).
#![tactic(auto, using(crate::proofs::Known::still_known, crate::proofs::Known::reference_before))]

ghost use Rattle.std.specs.Prelude.{◌≡◌, ℕ, true};
ghost use Rattle.class_machine.specs.Effect as definition;
ghost use Rattle.class_machine.specs.Values.{same_object};
ghost use Rattle.machine_values.specs.States.{is_known_object};
ghost use Rattle.machine_frames.specs.Naming.{Naming, Faithful, reference};
ghost use Rattle.machine_frames.specs.Effects.{AreKnown};
ghost use Rattle.machine_frames.specs.Operands.{Works, WorksUnder, StaysKnown, IsKnownEffect};
ghost use Rattle.machine_frames.specs.Undoing.{UndoesOn, is_plain};

use crate::effect::Effect;
use crate::kinds::is_same_kind;
use crate::numbers::test_passes;
use crate::operands::{has_room, pop_int, pop_kind, pop_reference, put_all_back, reference_value};
use class_machine::kinds::{Fault, Kind, Test};
use machine_values::{Operands, Ref};

/// Whether it is the same object, or null both times.
#[tactic(auto, using(crate::proofs::Same::same))]
pub fn is_same(a: Option<Ref>, b: Option<Ref>) -> bool
    ensures { (n : Naming) (count : ℕ) → Faithful n count → is_known_object count a ≡ true → is_known_object count b ≡ true → result ≡ same_object (reference n a) (reference n b) }
{
    match (a, b) {
        (None, None) => true,
        (Some(a), Some(b)) => a.0 == b.0,
        _ => false,
    }
}

// Whether it is as it is to be.
fn agrees(wanted: bool, found: bool) -> bool
    ensures { result ≡ definition.agrees wanted found }
{
    if wanted { found } else { !found }
}

/// Compares an int with 0 (JVMS 6, `ifeq` to `ifle`).
pub fn if_int(operands: &mut Operands, test: Test) -> Effect
    ensures room { operands.new.room ≡ operands.old.room }
    ensures done { Works operands.old operands.new result (λ s ops ls. definition.if_int test ops ls) }
    ensures within { StaysKnown operands.old operands.new }
    ensures known { IsKnownEffect operands.old result }
    ensures plain { is_plain result ≡ true }
{
    let Some(x) = pop_int(operands) else {
        return Effect::Broken
    };
    if test_passes(test, x, 0) {
        Effect::Jump(0)
    } else {
        Effect::On
    }
}

/// Compares two ints (JVMS 6, `if_icmpeq` to `if_icmple`).
pub fn if_ints(operands: &mut Operands, test: Test) -> Effect
    ensures room { operands.new.room ≡ operands.old.room }
    ensures done { Works operands.old operands.new result (λ s ops ls. definition.if_ints test ops ls) }
    ensures within { StaysKnown operands.old operands.new }
    ensures known { IsKnownEffect operands.old result }
    ensures plain { is_plain result ≡ true }
{
    let Some(y) = pop_int(operands) else {
        return Effect::Broken
    };
    let Some(x) = pop_int(operands) else {
        return Effect::Broken
    };
    if test_passes(test, x, y) {
        Effect::Jump(0)
    } else {
        Effect::On
    }
}

/// Compares two references (JVMS 6, `if_acmpeq` and `if_acmpne`). Distinct places have distinct names.
pub fn if_references(operands: &mut Operands, same: bool) -> Effect
    ensures room { operands.new.room ≡ operands.old.room }
    ensures done { (n : Naming) (count : ℕ) → Faithful n count → AreKnown count operands.old.values → WorksUnder n operands.old operands.new result (λ s ops ls. definition.if_references same ops ls) }
    ensures within { StaysKnown operands.old operands.new }
    ensures known { IsKnownEffect operands.old result }
    ensures plain { is_plain result ≡ true }
{
    let Some(b) = pop_reference(operands) else {
        return Effect::Broken
    };
    let Some(a) = pop_reference(operands) else {
        return Effect::Broken
    };
    let found = is_same(a, b);
    if agrees(same, found) {
        Effect::Jump(0)
    } else {
        Effect::On
    }
}

/// Compares a reference with null (JVMS 6, `ifnull` and `ifnonnull`).
pub fn if_null(operands: &mut Operands, null: bool) -> Effect
    ensures room { operands.new.room ≡ operands.old.room }
    ensures done { Works operands.old operands.new result (λ s ops ls. definition.if_null null ops ls) }
    ensures within { StaysKnown operands.old operands.new }
    ensures known { IsKnownEffect operands.old result }
    ensures plain { is_plain result ≡ true }
{
    let Some(a) = pop_reference(operands) else {
        return Effect::Broken
    };
    if a.is_none() == null {
        Effect::Jump(0)
    } else {
        Effect::On
    }
}

/// Into a subroutine, if there is room for a return address (JVMS 6, `jsr`).
pub fn enter(operands: &Operands) -> Effect
    ensures done { Works operands.now operands.now result (λ s ops ls. definition.enter s.room ops ls) }
    ensures known { IsKnownEffect operands.now result }
    ensures plain { is_plain result ≡ true }
{
    if has_room(operands, Kind::Reference) {
        Effect::Enter(0)
    } else {
        Effect::Broken
    }
}

/// Out of the method, whose result is of that kind (JVMS 6, `return` to `areturn`).
pub fn leave(operands: &mut Operands, kind: Option<Kind>, returns: Option<Kind>) -> Effect
    ensures room { operands.new.room ≡ operands.old.room }
    ensures done { Works operands.old operands.new result (λ s ops ls. definition.leave kind returns ops) }
    ensures within { StaysKnown operands.old operands.new }
    ensures known { IsKnownEffect operands.old result }
    ensures plain { is_plain result ≡ true }
{
    match (kind, returns) {
        (None, None) => Effect::Leave(None),
        (Some(kind), Some(returns)) => {
            let Some(held) = pop_kind(operands, kind) else {
                return Effect::Broken
            };
            if is_same_kind(kind, returns) {
                Effect::Leave(Some(held))
            } else {
                Effect::Broken
            }
        }
        _ => Effect::Broken,
    }
}

/// Throws the object on top (JVMS 6, `athrow`).
pub fn throw(operands: &mut Operands) -> Effect
    ensures room { operands.new.room ≡ operands.old.room }
    ensures done { Works operands.old operands.new result (λ s ops ls. definition.throw ops) }
    ensures within { StaysKnown operands.old operands.new }
    ensures known { IsKnownEffect operands.old result }
    ensures undone { UndoesOn operands.old operands.new result }
{
    let Some(object) = pop_reference(operands) else {
        return Effect::Broken
    };
    put_all_back(operands, &[reference_value(object)]);
    match object {
        Some(at) => Effect::Throw(at),
        None => Effect::Fail(Fault::NullPointer),
    }
}
