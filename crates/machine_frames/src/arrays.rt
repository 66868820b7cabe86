//! Arrays and monitors (JVMS 3.11.5, 3.11.10).
#![tactic(auto, using(crate::proofs::Known::still_known, crate::proofs::Known::reference_before, crate::proofs::Undone::asks, crate::proofs::Undone::breaks))]

ghost use Rattle.std.specs.Prelude.{◌≡◌, ℕ, None, ◌∷◌};
ghost use Rattle.class_machine.specs.Effect as definition;
ghost use Rattle.class_machine.specs.Descriptors.{primitive};
ghost use Rattle.machine_frames.specs.Operands.{Works, StaysKnown, IsKnownEffect};
ghost use Rattle.machine_frames.specs.Undoing.{UndoesOn};

use crate::effect::{Effect, Request};
use crate::kinds::element_kind;
use crate::operands::{has_room, pop_int, pop_kind, pop_reference};
use class_machine::kinds::Element;
use machine_values::Operands;

/// An array of a primitive type, of the size on top (JVMS 6, `newarray`).
pub fn new_array(operands: &mut Operands, element: Element) -> Effect
    ensures room { operands.new.room ≡ operands.old.room }
    ensures done { Works operands.old operands.new result (λ s ops ls. definition.new_array None (91 ∷ primitive element) 1 ops ls) }
    ensures within { StaysKnown operands.old operands.new }
    ensures known { IsKnownEffect operands.old result }
    ensures undone { UndoesOn operands.old operands.new result }
{
    let Some(size) = pop_int(operands) else {
        return Effect::Broken
    };
    Effect::Ask(Request::MakeArray(element, size))
}

/// The element at an index (JVMS 6, `iaload` and its kin).
pub fn load_element(operands: &mut Operands, element: Element) -> Effect
    ensures room { operands.new.room ≡ operands.old.room }
    ensures done { Works operands.old operands.new result (λ s ops ls. definition.array_load s.room element ops ls) }
    ensures within { StaysKnown operands.old operands.new }
    ensures known { IsKnownEffect operands.old result }
    ensures undone { UndoesOn operands.old operands.new result }
{
    let Some(index) = pop_int(operands) else {
        return Effect::Broken
    };
    let Some(array) = pop_reference(operands) else {
        return Effect::Broken
    };
    if has_room(operands, element_kind(element)) {
        Effect::Ask(Request::ArrayLoad(element, array, index))
    } else {
        Effect::Broken
    }
}

/// Another element at an index (JVMS 6, `iastore` and its kin).
pub fn store_element(operands: &mut Operands, element: Element) -> Effect
    ensures room { operands.new.room ≡ operands.old.room }
    ensures done { Works operands.old operands.new result (λ s ops ls. definition.array_store element ops ls) }
    ensures within { StaysKnown operands.old operands.new }
    ensures known { IsKnownEffect operands.old result }
    ensures undone { UndoesOn operands.old operands.new result }
{
    let Some(held) = pop_kind(operands, element_kind(element)) else {
        return Effect::Broken
    };
    let Some(index) = pop_int(operands) else {
        return Effect::Broken
    };
    let Some(array) = pop_reference(operands) else {
        return Effect::Broken
    };
    Effect::Ask(Request::ArrayStore(element, array, index, held))
}

/// The length of an array.
pub fn array_length(operands: &mut Operands) -> Effect
    ensures room { operands.new.room ≡ operands.old.room }
    ensures done { Works operands.old operands.new result (λ s ops ls. definition.ask_of definition.ArrayLength ops ls) }
    ensures within { StaysKnown operands.old operands.new }
    ensures known { IsKnownEffect operands.old result }
    ensures undone { UndoesOn operands.old operands.new result }
{
    let Some(array) = pop_reference(operands) else {
        return Effect::Broken
    };
    Effect::Ask(Request::ArrayLength(array))
}

/// Enters the monitor of an object (JVMS 6, `monitorenter`).
pub fn enter_monitor(operands: &mut Operands) -> Effect
    ensures room { operands.new.room ≡ operands.old.room }
    ensures done { Works operands.old operands.new result (λ s ops ls. definition.ask_of definition.EnterMonitor ops ls) }
    ensures within { StaysKnown operands.old operands.new }
    ensures known { IsKnownEffect operands.old result }
    ensures undone { UndoesOn operands.old operands.new result }
{
    let Some(object) = pop_reference(operands) else {
        return Effect::Broken
    };
    Effect::Ask(Request::EnterMonitor(object))
}

/// Leaves the monitor of an object (JVMS 6, `monitorexit`).
pub fn leave_monitor(operands: &mut Operands) -> Effect
    ensures room { operands.new.room ≡ operands.old.room }
    ensures done { Works operands.old operands.new result (λ s ops ls. definition.ask_of definition.LeaveMonitor ops ls) }
    ensures within { StaysKnown operands.old operands.new }
    ensures known { IsKnownEffect operands.old result }
    ensures undone { UndoesOn operands.old operands.new result }
{
    let Some(object) = pop_reference(operands) else {
        return Effect::Broken
    };
    Effect::Ask(Request::LeaveMonitor(object))
}
