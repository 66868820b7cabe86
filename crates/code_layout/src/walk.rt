//! The instructions of some code, and a table of their numbers.

ghost use Rattle.std.specs.Prelude.{◌≡◌, ◌<◌, ◌-◌, ◌^◌, ◌++◌, ◌∷◌, [], length, replicate, Some, None, IfOk, IfErr, OnOk, Err};
ghost use Rattle.class_file.specs.Code.{instructions};
ghost use Rattle.code_layout.specs.Numbers.{AreSteps, FaultIs};

use crate::fault::TakeApartFault;
use opcode_table::{Insn, decode_at};
use std::alloc::{AllocError, Global};

/// An instruction at its place.
#[derive(Clone, Copy)]
pub(crate) struct Step {
    pub(crate) pc: u32,
    pub(crate) insn: Insn,
}

/// The instructions of some code in order, and for each place the number of the instruction that begins
/// there, if one does.
#[derive(Drop)]
pub(crate) struct Walk {
    pub(crate) steps: Vec<Step>,
    pub(crate) numbers: Vec<Option<u32>>,
}

impl Walk {
    /// Adds the next instruction, which has so many bytes.
    fn add(&mut self, step: Step, size: u32) -> Result<(), AllocError>
        requires some { 0 < size }
        requires few { length self.old.steps.items < 2 ^ 16 }
        requires rows { length self.old.numbers.items < 2 ^ 16 }
        ensures steps { OnOk result (self.new.steps.items ≡ self.old.steps.items ++ step ∷ []) }
        ensures numbers { OnOk result (self.new.numbers.items ≡ self.old.numbers.items ++ (Some (length self.old.steps.items) ∷ replicate (size - 1) None)) }
    {
        let number = self.steps.len() as u32;
        let end = self.numbers.len() + size as usize;
        self.numbers.push(Some(number))?;
        self.numbers.resize(end, None)?;
        self.steps.push(step)?;
        Ok(())
    }
}

/// The instructions of the code.
pub(crate) fn walk_code(alloc: Global, code: &[u8]) -> Result<Walk, TakeApartFault>
    requires { length code.now < 2 ^ 16 }
    ensures walked { IfOk result (λ found. AreSteps code.now found.steps.items found.numbers.items) }
    ensures fault { IfErr result (FaultIs (λ fault. instructions code.now ≡ Err fault) (λ _. ⊥)) }
{
    let mut found = Walk {
        steps: Vec::new(alloc),
        numbers: Vec::new(alloc),
    };
    let mut pc = 0;
    while (pc as usize) < code.len() {
        match decode_at(code, pc) {
            Ok((insn, size)) => {
                found.add(Step { pc, insn }, size)?;
                pc += size;
            }
            Err(fault) => return Err(TakeApartFault::Code(fault)),
        }
    }
    Ok(found)
}
