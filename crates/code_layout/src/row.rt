//! Blocks as one list of instructions.

ghost use Rattle.std.specs.Prelude.{◌≡◌, ◌+◌, ◌^◌, ◌<◌, ◌≤◌, ◌++◌, ◌∷◌, [], length, map, IfOk, IfErr, OnOk, SomeIff, FitsSigned};
ghost use Rattle.std.specs.Int.{w32};
ghost use Rattle.std.specs.List.{AllByRecursion, AllZip};
ghost use Rattle.code_layout.specs.Blocks.{IsBlock, IsTargetOf, Leads, target_row, rows_of, rows};
ghost use Rattle.code_layout.specs.Spelled.{AreStarts, HaveKeys};

use crate::block::{Block, BlockTarget};
use crate::method_code::Jump;
use opcode_table::Insn;
use sqlite_items::Items;
use std::alloc::{AllocError, Global};

/// An instruction of a block, and where it may lead, by the numbers of rows.
#[derive(Drop)]
pub(crate) struct Row {
    pub(crate) insn: Insn,
    pub(crate) jump: Jump<u32>,
}

/// The number of the row that is so many behind, if 32 bits have it.
fn row_after(start: u32, more: usize) -> Option<u32>
    ensures { SomeIff result (start + more < 2 ^ 32) (start + more) }
{
    if more > (u32::MAX - start) as usize {
        None
    } else {
        Some(start + more as u32)
    }
}

/// The number of each block's first row, and behind them that of all rows. More rows than 32 bits count
/// are answered as want of memory.
pub(crate) fn starts(alloc: Global, blocks: &[Block]) -> Result<Vec<u32>, AllocError>
    ensures { IfOk result (λ starts. AreStarts blocks.now starts.items) }
{
    let mut starts = Vec::new(alloc);
    let mut start: u32 = 0;
    starts.push(start)?;
    for block in blocks {
        match row_after(start, block.insns.len()) {
            Some(next) => start = next,
            None => return Err(AllocError),
        }
        starts.push(start)?;
    }
    Ok(starts)
}

/// The row where a target of a block leads, whose first row is `start`.
pub(crate) fn row_of(
    starts: &[u32],
    blocks: &[Block],
    start: u32,
    block: &Block,
    target: BlockTarget,
) -> u32
    requires starts { AreStarts blocks.now starts.now }
    requires small { start + length block.now.insns < 2 ^ 32 }
    requires labels { AllByRecursion (λ position. position ≤ length block.now.insns) block.now.labels }
    requires there { IsTargetOf (length blocks.now) block.now target }
    ensures { result ≡ target_row blocks.now start block.now.labels target }
{
    match target {
        BlockTarget::Label(label) => start + block.labels.as_slice()[label as usize],
        BlockTarget::Old(number) => starts[number as usize],
        BlockTarget::Miss => start,
    }
}

/// The same keys, each of which is one of 32 bits.
fn copied_keys(alloc: Global, keys: &[i32]) -> Result<Vec<i32>, AllocError>
    ensures same { IfOk result (λ copied. copied.items ≡ keys.now) }
    ensures fit { IfOk result (λ copied. AllByRecursion (FitsSigned w32) copied.items) }
{
    let mut copied = Vec::new(alloc);
    for key in keys {
        copied.push(*key)?;
    }
    Ok(copied)
}

/// The jump of a block's instruction by the numbers of rows.
fn row_jump(
    alloc: Global,
    starts: &[u32],
    blocks: &[Block],
    start: u32,
    block: &Block,
    jump: &Jump<BlockTarget>,
) -> Result<Jump<u32>, AllocError>
    requires starts { AreStarts blocks.now starts.now }
    requires small { start + length block.now.insns < 2 ^ 32 }
    requires labels { AllByRecursion (λ position. position ≤ length block.now.insns) block.now.labels }
    requires there { AllByRecursion (IsTargetOf (length blocks.now) block.now) jump.now.to }
    ensures keys { IfOk result (λ found. found.keys ≡ jump.now.keys) }
    ensures fit { IfOk result (λ found. AllByRecursion (FitsSigned w32) found.keys) }
    ensures to { IfOk result (λ found. found.to ≡ map (target_row blocks.now start block.now.labels) jump.now.to) }
{
    let mut to = Vec::new(alloc);
    for target in jump.to.as_slice() {
        to.push(row_of(starts, blocks, start, block, *target))?;
    }
    Ok(Jump {
        keys: Items::from_vec(copied_keys(alloc, jump.keys.as_slice())?),
        to: Items::from_vec(to),
    })
}

/// Adds the rows of a block, whose first row is `start`.
fn add_rows(
    rows: &mut Vec<Row>,
    alloc: Global,
    starts: &[u32],
    blocks: &[Block],
    start: u32,
    block: &Block,
) -> Result<(), AllocError>
    requires starts { AreStarts blocks.now starts.now }
    requires small { start + length block.now.insns < 2 ^ 32 }
    requires is { IsBlock (length blocks.now) block.now }
    requires fit { HaveKeys rows.old.items }
    ensures rows { OnOk result (rows.new.items ≡ rows.old.items ++ rows_of (target_row blocks.now start block.now.labels) block.now.insns block.now.targets) }
    ensures fit { OnOk result (HaveKeys rows.new.items) }
{
    let jumps = block.targets.as_slice();
    for (i, insn) in block.insns.as_slice().iter().enumerate() {
        let jump = row_jump(alloc, starts, blocks, start, block, &jumps[i])?;
        rows.push(Row { insn: *insn, jump })?;
    }
    Ok(())
}

/// The instructions of the blocks in one list.
pub(crate) fn rows(alloc: Global, starts: &[u32], blocks: &[Block]) -> Result<Vec<Row>, AllocError>
    requires starts { AreStarts blocks.now starts.now }
    requires are { AllByRecursion (IsBlock (length blocks.now)) blocks.now }
    ensures rows { IfOk result (λ all. all.items ≡ rows blocks.now) }
    ensures fit { IfOk result (λ all. HaveKeys all.items) }
{
    let mut all = Vec::new(alloc);
    for (i, block) in blocks.iter().enumerate() {
        add_rows(&mut all, alloc, starts, blocks, starts[i], block)?;
    }
    Ok(all)
}
