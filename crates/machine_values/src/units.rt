//! Owned UTF-16 units.

ghost use Rattle.std.specs.Prelude.{◌≡◌, ◌++◌, List, ℕ, length, nat_eq, IfOk, OnOk, OnErr};
ghost use Rattle.std.proofs.Common.{rules};
ghost use Rattle.std.specs.Cmp.Rules.{comparing, hashing};
ghost use Rattle.std.specs.Cmp.Lexicographic.{pointwise};
ghost use Rattle.std.specs.Hash as fed;

use std::alloc::{AllocError, Global};
use std::hash::{Hash, Hasher};
use std::marker::Model;

/// The UTF-16 units of a text. Two are equal where their units are.
#[derive(Drop)]
pub struct Units {
    units: Vec<u16>,
}

impl Model for Units {
    ghost use Rattle.std.specs.Prelude.{List, ℕ};

    ghost Value = { List ℕ };

    ghost view = { λ s. s.units.items };
}

impl Units {
    /// A copy of the units.
    pub fn from_slice(alloc: Global, units: &[u16]) -> Result<Units, AllocError>
        ensures { IfOk result (λ s. s ≡ units.now) }
    {
        let units = Vec::from_slice(alloc, units)?;
        Ok(Units { units })
    }

    /// The units.
    pub fn as_slice(&self) -> &[u16]
        ensures { result.now ≡ self.now }
    {
        self.units.as_slice()
    }

    /// Units go to the end. Where there is no memory nothing changes.
    pub fn append(&mut self, more: &[u16]) -> Result<(), AllocError>
        ensures ok { OnOk result (self.new ≡ self.old ++ more.now) }
        ensures err { OnErr result (self.new ≡ self.old) }
    {
        self.units.extend_from_slice(more)
    }

    /// An equal value in memory of its own.
    pub fn copy(&self) -> Result<Units, AllocError>
        ensures { IfOk result (λ s. s ≡ self.now) }
    {
        Units::from_slice(*self.units.allocator(), self.as_slice())
    }
}

impl PartialEq for Units {
    ghost eq = { pointwise nat_eq };

    ghost laws = { Prim.search (comparing, rules) };

    fn eq(&self, other: &Units) -> bool {
        self.as_slice() == other.as_slice()
    }
}

impl Eq for Units {
    ghost laws = { Prim.search (comparing, rules) };
}

impl Hash for Units {
    ghost hash_input = { λ s. fed.slice fed.u16 s };

    ghost respects_eq = { Prim.search (hashing, rules) };

    fn hash<H: Hasher>(&self, state: &mut H) {
        self.as_slice().hash(state);
    }
}
