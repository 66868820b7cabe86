//! The places at which the instructions of a method's code stand.

ghost use Rattle.std.specs.Prelude.{◌≡◌, ◌<◌, ◌+ℤ◌, ◌^◌, pos, List, length, map, IfOk};
ghost use Rattle.std.specs.List.{All};
ghost use Rattle.class_file.specs.Code as rule;
ghost use Rattle.class_rules.specs.Instructions.{as_placed};
ghost use Rattle.class_rules.specs.Starts.{Marks, Finds};

use crate::instructions::{Placed, instructions};
use opcode_table::CodeFault;
use std::alloc::{AllocError, Global};

/// The places of a method's code at which an instruction stands: a mark for each byte.
#[derive(Debug, Drop)]
pub struct Starts {
    pub(crate) marks: Vec<bool>,
}

impl Starts {
    /// Marks the places of the instructions of code of this length.
    pub(crate) fn mark(alloc: Global, length: usize, insns: &[Placed]) -> Result<Starts, AllocError>
        requires { All (λ p. p.pc < length) insns.now }
        ensures { IfOk result (λ starts. Marks starts (map as_placed insns.now)) }
    {
        let mut marks = vec![in alloc; false; length]?;
        for placed in insns {
            marks[placed.pc as usize] = true;
        }
        Ok(Starts { marks })
    }

    /// Finds the places at which the instructions of the code stand, or why at the first place that has
    /// none there is none (JVMS 4.8.1), in time linear in the code.
    pub fn find(alloc: Global, code: &[u8]) -> Result<Result<Starts, CodeFault>, AllocError>
        requires { length code.now < 2 ^ 16 }
        ensures { IfOk result (λ found. Finds found (rule.instructions code.now)) }
    {
        match instructions(alloc, code)? {
            Ok(insns) => Ok(Ok(Starts::mark(alloc, code.len(), insns.as_slice())?)),
            Err(fault) => Ok(Err(fault)),
        }
    }

    /// Whether an instruction stands at the place, which may be any.
    pub fn is_start(&self, pc: u32) -> bool
        ensures { (insns : List rule.Placed) → Marks self.now insns → result ≡ rule.is_start insns pc }
    {
        self.marks.get(pc as usize).copied().unwrap_or(false)
    }

    /// Whether an instruction stands at the place that is `offset` bytes from `pc`.
    pub fn is_start_from(&self, pc: u32, offset: i32) -> bool
        requires { pc < 2 ^ 16 }
        ensures { (insns : List rule.Placed) → Marks self.now insns → result ≡ rule.is_start_at insns (pos pc +ℤ offset) }
    {
        match pc.checked_add_signed(offset) {
            Some(place) => self.is_start(place),
            None => false,
        }
    }
}
