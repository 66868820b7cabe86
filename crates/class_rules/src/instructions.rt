//! The instructions of a method's code, each at its place.

ghost use Rattle.std.specs.Prelude.{◌≡◌, ◌<◌, ◌^◌, length, map, IfOk};
ghost use Rattle.std.specs.List.{All};
ghost use Rattle.std.specs.Result.{result_map_both};
ghost use Rattle.class_file.specs.Code as rule;
ghost use Rattle.class_rules.specs.Instructions.{as_placed, StandsIn};

use opcode_table::{CodeFault, Insn, decode_at};
use std::alloc::{AllocError, Global};

/// An instruction at its place, in bytes from the start of the code.
#[derive(Clone, Copy)]
pub(crate) struct Placed {
    pub(crate) pc: u32,
    pub(crate) insn: Insn,
}

/// The instructions of the code, in order, each where the one before ends, or why at the first place
/// that has none there is none (JVMS 4.8.1).
pub(crate) fn instructions(
    alloc: Global,
    code: &[u8],
) -> Result<Result<Vec<Placed>, CodeFault>, AllocError>
    requires { length code.now < 2 ^ 16 }
    ensures exact { IfOk result (λ found. result_map_both (λ insns. map as_placed insns.items) (λ fault. fault) found ≡ rule.instructions code.now) }
    ensures stand { IfOk result (λ found. IfOk found (λ insns. All (StandsIn code.now) insns.items)) }
{
    let mut insns = Vec::new(alloc);
    let mut pc = 0;
    while (pc as usize) < code.len() {
        match decode_at(code, pc) {
            Ok((insn, size)) => {
                insns.push(Placed { pc, insn })?;
                pc += size;
            }
            Err(fault) => return Ok(Err(fault)),
        }
    }
    Ok(Ok(insns))
}
