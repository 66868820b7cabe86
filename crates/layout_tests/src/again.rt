//! Code taken apart and laid out again.

use crate::blocks::{NOP, add, lay, one};
use crate::taken::{SWITCH, apart, code_of, entry_of};
use class_file::CodeAttr;
use code_layout::{Block, BlockTarget, Jump, LayoutFault, MethodCode};
use opcode_table::Insn;
use std::alloc::{AllocError, Global};

/// The block of one instruction, which leads to the blocks of its old targets.
fn same(alloc: Global, insn: Insn, jump: &Jump<u32>) -> Result<Block, AllocError> {
    let mut to = Vec::new(alloc);
    for number in jump.to.as_slice() {
        to.push(BlockTarget::Old(*number))?;
    }
    one(alloc, insn, jump.keys.as_slice(), &to)
}

/// A block for each instruction.
fn unchanged(alloc: Global, old: &MethodCode) -> Result<Vec<Block>, AllocError> {
    let mut blocks = Vec::new(alloc);
    for (insn, jump) in old.insns.as_slice().iter().zip(old.targets.as_slice()) {
        blocks.push(same(alloc, *insn, jump)?)?;
    }
    Ok(blocks)
}

/// The code taken apart and laid out again, with three `nop` behind the third instruction if asked.
fn laid_again(alloc: Global, code: &CodeAttr, nops: bool) -> Result<CodeAttr, LayoutFault> {
    let Ok(old) = apart(alloc, code) else {
        return Err(LayoutFault::Memory);
    };
    let mut blocks = unchanged(alloc, &old)?;
    if let Some(block) = blocks.get_mut(2)
        && nops
    {
        for _ in 0..3 {
            add(alloc, block, NOP, &[], &[])?;
        }
    }
    lay(alloc, &blocks, &old)
}

/// Whether the code is laid out again as it is.
fn stays(alloc: Global, code: &CodeAttr) -> Result<bool, LayoutFault> {
    let again = laid_again(alloc, code, false)?;
    Ok(
        again.code.as_slice() == code.code.as_slice()
            && again.entries.as_slice() == code.entries.as_slice(),
    )
}

/// `iconst_0`, an `ifeq` with the offset 32767 over `nop`, and a `return`.
fn far(alloc: Global) -> Result<CodeAttr, AllocError> {
    let mut bytes = Vec::from_slice(alloc, &[3, 153, 127, 255])?;
    bytes.resize(32768, 0)?;
    bytes.push(177)?;
    code_of(alloc, &bytes, entry_of(1, 24, 24))
}

#[test]
fn unchanged_code_is_the_same(rt: HostRuntime) -> Result<(), LayoutFault> {
    let switch = code_of(rt.alloc(), &SWITCH, entry_of(1, 24, 24))?;
    assert!(rt; stays(rt.alloc(), &switch)?);
    assert!(rt; stays(rt.alloc(), &far(rt.alloc())?)?);
    Ok(())
}

#[test]
fn a_far_branch_is_widened(rt: HostRuntime) -> Result<(), LayoutFault> {
    let code = laid_again(rt.alloc(), &far(rt.alloc())?, true)?;
    assert!(rt; code.code.len() == 32777);
    assert!(rt;
        code.code
            .as_slice()
            .starts_with(&[3, 154, 0, 8, 200, 0, 0, 128, 4])
    );
    Ok(())
}
