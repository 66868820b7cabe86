//! What instructions do, whatever their opcodes.

use crate::kinds::{
    Access, Binary, Constant, Conversion, Division, Element, Kind, Mode, Shift, Slots, Test,
};

/// The semantic form of an instruction that names nothing in the constant pool. An `u16` is the index
/// of a local. Where it jumps, its code says.
#[derive(Clone, Copy)]
pub enum Basic {
    Nothing,
    Constant(Constant),
    Load(Kind, u16),
    Store(Kind, u16),
    /// Takes away the topmost slots.
    Pop(Slots),
    /// Puts the topmost slots once more, below so many further ones.
    Duplicate(Slots, Slots),
    Swap,
    IntBinary(Binary),
    LongBinary(Binary),
    IntDivide(Division),
    LongDivide(Division),
    IntNegate,
    LongNegate,
    IntShift(Shift),
    LongShift(Shift),
    Increment(u16, i16),
    Convert(Conversion),
    CompareLong,
    /// The arithmetic, comparison or conversion `op` of floating-point numbers: it takes one value of
    /// the kind `from`, or `both` of two, and would give one of the kind `to`.
    Unmodelled {
        op: u8,
        from: Kind,
        both: bool,
        to: Kind,
    },
    IfInt(Test),
    IfInts(Test),
    /// Jumps where that two references are to one object is as it says.
    IfReferences(bool),
    /// Jumps where that a reference is null is as it says.
    IfNull(bool),
    Goto,
    Jsr,
    Ret(u16),
    Return(Option<Kind>),
    Throw,
    /// Makes an array of a primitive type.
    NewArray(Element),
    ArrayLoad(Element),
    ArrayStore(Element),
    ArrayLength,
    EnterMonitor,
    LeaveMonitor,
}

/// What an opcode means, but for what its operand bytes say.
#[derive(Clone, Copy)]
pub enum Meaning {
    /// The opcode says all, or all but its targets.
    Basic(Basic),
    /// Pushes its operand.
    Push,
    /// Its operand is the index of the local.
    Load(Kind),
    Store(Kind),
    Ret,
    Increment,
    /// Its operand is the code of the element's type.
    NewArray,
    /// Its operand is the table of keys and targets.
    Switch,
    /// The operand of each of these is an index of the constant pool.
    LoadConstant,
    Field(Access),
    Invoke(Mode),
    New,
    NewReferenceArray,
    NewArrays,
    CheckCast,
    InstanceOf,
}
