//! The operands of a frame.

ghost use Rattle.std.specs.Prelude.{◌≡◌, ◌+◌, ◌≤◌, [], ◌∷◌, map, reverse, nat_le, MatchOption, IfOk, IfSome};
ghost use Rattle.std.specs.Bool.{MatchBool};
ghost use Rattle.machine_values.specs.Stacks.{is_wide, width, weight, Pushes, Overflows, filled_in};

use crate::values::{Ref, Value};
use smallvec::SmallVec;
use std::alloc::{AllocError, Global};
use std::marker::Model;

/// The operands of a frame, the last pushed first, and how many slots they may take; a long or a
/// double takes two (JVMS 3.6.2). Their memory is reserved as they are made.
#[derive(Drop)]
pub struct Operands {
    items: SmallVec<Value, 8>,
    slots: usize,
    room: usize,
}

impl Model for Operands {
    ghost use Rattle.std.specs.Prelude.{◌≡◌, ◌≤◌, reverse};
    ghost use Rattle.machine_values.specs.Stacks.{Stack, weight};

    ghost Value = { Stack };

    ghost view = { λ s. record { room = s.room; values = reverse s.items.items } };

    ghost invariant = { λ s. (s.slots ≡ weight (reverse s.items.items)) × (s.slots ≤ s.room) × (s.room ≤ s.items.capacity) };
}

impl Value {
    /// Whether it takes two slots.
    pub fn is_wide(&self) -> bool
        ensures { result ≡ is_wide self.now }
    {
        matches!(self, Value::Long(_) | Value::Double(_))
    }

    /// How many slots it takes.
    pub fn width(&self) -> usize
        ensures { result ≡ width self.now }
    {
        if self.is_wide() { 2 } else { 1 }
    }

    /// The object, where this is a token of the number, and else itself.
    pub(crate) fn filled_in(self, number: u64, object: Ref) -> Value
        ensures { result ≡ filled_in number object self }
    {
        match self {
            Value::Token(class, other) => {
                if other == number {
                    Value::Reference(object)
                } else {
                    Value::Token(class, other)
                }
            }
            _ => self,
        }
    }
}

// Each token of the number becomes the object.
#[tactic(auto, using(std::proofs::lemmas::List::take_all, std::proofs::lemmas::List::drop_all))]
fn fill_in(values: &mut [Value], number: u64, object: Ref)
    ensures { values.new ≡ map (filled_in number object) values.old }
{
    for value in values.iter_mut() {
        *value = value.filled_in(number, object);
    }
}

impl Operands {
    /// No operands, with room for so many slots.
    pub fn new(alloc: Global, room: u16) -> Result<Operands, AllocError>
        ensures room { IfOk result (λ s. s.room ≡ room) }
        ensures empty { IfOk result (λ s. s.values ≡ []) }
    {
        let room = room as usize;
        let mut items = SmallVec::new(alloc);
        items.reserve(room)?;
        Ok(Operands {
            items,
            slots: 0,
            room,
        })
    }

    /// Puts the value on top, and says whether there was room. It takes no memory.
    #[tactic(auto, using(crate::proofs::Slots::width_pos, crate::proofs::Slots::length_reversed))]
    pub fn push(&mut self, value: Value) -> bool
        ensures room { self.new.room ≡ self.old.room }
        ensures pushed { MatchBool result (Pushes self.old value self.new) (Overflows self.old value self.new) }
    {
        let width = value.width();
        if width > self.room - self.slots {
            return false;
        }
        self.items.push_reserved(value);
        self.slots += width;
        true
    }

    /// Takes the topmost value, if there is one.
    pub fn pop(&mut self) -> Option<Value>
        ensures room { self.new.room ≡ self.old.room }
        ensures popped { MatchOption result ((self.old.values ≡ []) × (self.new.values ≡ [])) (λ v. self.old.values ≡ v ∷ self.new.values) }
        ensures fits { weight self.old.values ≤ self.old.room }
    {
        let value = self.items.pop()?;
        self.slots -= value.width();
        Some(value)
    }

    /// The values, the last pushed last.
    pub fn as_slice(&self) -> &[Value]
        ensures { self.now.values ≡ reverse result.now }
    {
        self.items.as_slice()
    }

    /// Whether there is room for so many slots more.
    pub fn has_room(&self, slots: usize) -> bool
        ensures { result ≡ nat_le (slots + weight self.now.values) self.now.room }
    {
        slots <= self.room - self.slots
    }

    /// Every copy of the token of this number becomes the object. It takes no memory.
    pub fn fill_in(&mut self, number: u64, object: Ref)
        ensures room { self.new.room ≡ self.old.room }
        ensures filled { self.new.values ≡ map (filled_in number object) self.old.values }
    {
        fill_in(self.items.as_mut_slice(), number, object);
    }
}
