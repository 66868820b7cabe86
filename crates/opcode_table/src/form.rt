//! What stands behind an opcode.

/// The operand form of an opcode: what the bytes behind it are (JVMS 6.4, "Format").
#[derive(Clone, Copy, Debug, PartialEq, Eq)]
pub enum Form {
    /// Nothing.
    Plain,
    /// A signed byte, of `bipush`.
    Byte,
    /// Two bytes, signed, of `sipush`.
    Short,
    /// The index of a local variable: one byte, or two behind `wide`.
    Local,
    /// The index of a local variable and a signed number, of `iinc`: a byte each, or two each behind `wide`.
    Increment,
    /// An index of the constant pool in one byte, of `ldc`.
    NarrowPool,
    /// An index of the constant pool in two bytes.
    Pool,
    /// An index of the constant pool, a count of slots and a byte 0, of `invokeinterface`.
    Interface,
    /// The code of a primitive type, of `newarray`.
    ArrayCode,
    /// An index of the constant pool and a number of dimensions, of `multianewarray`.
    Dimensions,
    /// The signed distance to the target, in two bytes.
    Branch,
    /// The signed distance to the target, in four bytes.
    WideBranch,
    /// Padding and a table by number.
    TableSwitch,
    /// Padding and a table by key.
    LookupSwitch,
    /// Another opcode, whose operands are wide.
    Wide,
}
