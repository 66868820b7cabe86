//! An instruction with its operands.

/// An instruction (JVMS 6.4), one variant for each form of operands. An `op` is an opcode, and an `index` that of a
/// local variable or of the constant pool.
#[derive(Clone, Copy, Debug, PartialEq)]
pub enum Insn {
    /// An opcode with no operand bytes.
    Plain(u8),
    /// `bipush`, with what it pushes.
    Bipush(i8),
    /// `sipush`, with what it pushes.
    Sipush(i16),
    /// A load or a store of a local variable, or `ret`, with or without `wide`.
    Local { op: u8, index: u16, wide: bool },
    /// `iinc`, with or without `wide`.
    Iinc { index: u16, by: i16, wide: bool },
    /// An instruction whose only operand is an index of the constant pool. That of `ldc` is one byte.
    Pool { op: u8, index: u16 },
    /// `invokeinterface`, with the count of slots and the byte behind it as they stand.
    Interface { index: u16, count: u8, last: u8 },
    /// `newarray`, with the code of its type.
    NewArray(u8),
    /// `multianewarray`, with its number of dimensions.
    Multi { index: u16, dims: u8 },
    /// A branch, with the distance in bytes from its own place to its target. That of `goto_w` and `jsr_w` has four
    /// bytes, each other one two.
    Branch { op: u8, offset: i32 },
    /// `tableswitch`, with the place in the code of the first byte behind its padding.
    TableSwitch { table: u32 },
    /// `lookupswitch`, with the place in the code of the first byte behind its padding.
    LookupSwitch { table: u32 },
}
