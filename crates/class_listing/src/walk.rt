//! The instructions of some code.

ghost use Rattle.std.specs.Prelude.{◌≡◌, ◌<◌, ◌^◌, length, map, IfOk, IfSome};
ghost use Rattle.std.specs.Option.{option_map};
ghost use Rattle.std.specs.List.{AllByRecursion};
ghost use Rattle.class_file.specs.Code.{instructions};
ghost use Rattle.class_listing.specs.Steps.{found, insns_of};
ghost use Rattle.class_listing.specs.Walked.{placed_of, IsStep};

use opcode_table::{Insn, decode_at};
use sqlite_items::Items;
use std::alloc::{AllocError, Global};

/// An instruction at its place.
#[derive(Clone, Copy)]
pub(crate) struct Step {
    pub(crate) pc: u32,
    pub(crate) insn: Insn,
}

/// The instructions of the code, or nothing where some place has none.
fn walk(alloc: Global, code: &[u8]) -> Result<Option<Items<Step>>, AllocError>
    requires { length code.now < 2 ^ 16 }
    ensures insns { IfOk result (λ steps. found (instructions code.now) ≡ option_map (map placed_of) steps) }
    ensures each { IfOk result (λ steps. IfSome steps (AllByRecursion (IsStep code.now))) }
{
    let mut steps = Items::new(alloc);
    let mut pc = 0;
    while (pc as usize) < code.len() {
        match decode_at(code, pc) {
            Ok((insn, size)) => {
                steps.push(Step { pc, insn })?;
                pc += size;
            }
            Err(_) => return Ok(None),
        }
    }
    Ok(Some(steps))
}

/// The instructions of code of at most 65535 bytes (JVMS 4.7.3), or nothing where it is longer or some
/// place has none.
pub(crate) fn steps_of(alloc: Global, code: &[u8]) -> Result<Option<Items<Step>>, AllocError>
    ensures insns { IfOk result (λ steps. insns_of code.now ≡ option_map (map placed_of) steps) }
    ensures each { IfOk result (λ steps. IfSome steps (AllByRecursion (IsStep code.now))) }
    ensures small { IfOk result (λ steps. IfSome steps (λ _. length code.now < 2 ^ 16)) }
{
    if code.len() < 0x1_0000 {
        walk(alloc, code)
    } else {
        Ok(None)
    }
}
