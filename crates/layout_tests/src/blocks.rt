//! Blocks, and the old code that they stand for.

use class_file::CodeAttr;
use code_layout::{
    Block, BlockEntry, BlockTarget, Jump, LayoutFault, MethodCode, is_layable, lay_out,
};
use opcode_table::Insn;
use sqlite_items::Items;
use std::alloc::{AllocError, Global};

pub(crate) const NOP: Insn = Insn::Plain(0);

/// A block with nothing in it.
fn empty(alloc: Global) -> Block {
    Block {
        insns: Items::new(alloc),
        targets: Items::new(alloc),
        labels: Items::new(alloc),
        entries: Items::new(alloc),
        stack: 0,
        locals: 0,
    }
}

/// Adds an instruction that leads to these.
pub(crate) fn add(
    alloc: Global,
    block: &mut Block,
    insn: Insn,
    keys: &[i32],
    to: &[BlockTarget],
) -> Result<(), AllocError> {
    let keys = Items::from_slice(alloc, keys)?;
    let to = Items::from_slice(alloc, to)?;
    block.insns.push(insn)?;
    block.targets.push(Jump { keys, to })
}

/// Adds a label.
pub(crate) fn label(block: &mut Block, position: u32) -> Result<(), AllocError> {
    block.labels.push(position)
}

/// Adds an entry of an exception table.
pub(crate) fn cover(block: &mut Block, entry: BlockEntry) -> Result<(), AllocError> {
    block.entries.push(entry)
}

/// A block of so many `nop`.
pub(crate) fn nops(alloc: Global, count: u32) -> Result<Block, AllocError> {
    let mut block = empty(alloc);
    for _ in 0..count {
        add(alloc, &mut block, NOP, &[], &[])?;
    }
    Ok(block)
}

/// A block of one instruction that leads to these.
pub(crate) fn one(
    alloc: Global,
    insn: Insn,
    keys: &[i32],
    to: &[BlockTarget],
) -> Result<Block, AllocError> {
    let mut block = empty(alloc);
    add(alloc, &mut block, insn, keys, to)?;
    Ok(block)
}

/// Old code of so many instructions, without tables.
pub(crate) fn old_of(alloc: Global, count: u32) -> Result<MethodCode, AllocError> {
    let mut old = MethodCode {
        insns: Items::new(alloc),
        targets: Items::new(alloc),
        entries: Items::new(alloc),
        lines: Items::new(alloc),
        variables: Items::new(alloc),
        max_stack: 1,
        max_locals: 2,
    };
    for _ in 0..count {
        old.insns.push(NOP)?;
        old.targets.push(Jump {
            keys: Items::new(alloc),
            to: Items::new(alloc),
        })?;
    }
    Ok(old)
}

/// The blocks laid out, where they may be.
pub(crate) fn lay(
    alloc: Global,
    blocks: &[Block],
    old: &MethodCode,
) -> Result<CodeAttr, LayoutFault> {
    if !is_layable(blocks, old) {
        return Err(LayoutFault::Memory);
    }
    lay_out(alloc, blocks, old)
}
