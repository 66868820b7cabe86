//! Blocks of instructions, which are laid out as the code of a method.

use crate::method_code::Jump;
use opcode_table::Insn;
use sqlite_items::Items;

/// Where a jump of a block leads.
#[derive(Clone, Copy, PartialEq, Eq, Debug)]
pub enum BlockTarget {
    /// To the label of this number, of the same block.
    Label(u32),
    /// To the block that stands for the old instruction of this number.
    Old(u32),
    /// To where the block gives up. Whoever puts the block to use replaces it.
    Miss,
}

/// An entry of an exception table that a block has of its own. The range from `start` to before `end` is
/// one of positions in the block, or where `old_range` of numbers of old instructions. The index is that
/// of the class that is caught, or 0 for any (JVMS 4.7.3).
#[derive(Clone, Copy, PartialEq, Eq, Debug)]
pub struct BlockEntry {
    pub start: u32,
    pub end: u32,
    pub old_range: bool,
    pub handler: BlockTarget,
    pub catch_type: u16,
}

/// Instructions that stand for one old instruction. There is one jump for each: the jumps count, and the
/// offset of a branch and the place of a switch's table do not. A label has a position in the block,
/// which may be the number of its instructions. `stack` is the room for operands that the block needs,
/// and `locals` the number of local variables.
#[derive(Debug, Drop)]
pub struct Block {
    pub insns: Items<Insn>,
    pub targets: Items<Jump<BlockTarget>>,
    pub labels: Items<u32>,
    pub entries: Items<BlockEntry>,
    pub stack: u16,
    pub locals: u16,
}
