//! Kinds of values, and the small parameters that tell instructions of one form apart.

/// What kind of value an operand or a local is (JVMS 3.11.1): a boolean, byte, short or char is an
/// int there.
#[derive(Clone, Copy)]
pub enum Kind {
    Int,
    Long,
    Float,
    Double,
    Reference,
}

/// What an array holds, as instructions on arrays tell it apart (JVMS 3.11.1).
#[derive(Clone, Copy)]
pub enum Element {
    Boolean,
    Byte,
    Char,
    Short,
    Int,
    Long,
    Float,
    Double,
    Reference,
}

/// An operation on two ints or longs (JVMS 3.11.3).
#[derive(Clone, Copy)]
pub enum Binary {
    Add,
    Subtract,
    Multiply,
    And,
    Or,
    Xor,
}

/// A division, which throws on a divisor of 0 (JVMS 6, `idiv` and `irem`).
#[derive(Clone, Copy)]
pub enum Division {
    Quotient,
    Remainder,
}

/// A shift by an int (JVMS 6, `ishl`, `ishr` and `iushr`).
#[derive(Clone, Copy)]
pub enum Shift {
    Left,
    Right,
    Unsigned,
}

/// A conversion among ints and longs (JVMS 3.11.4).
#[derive(Clone, Copy)]
pub enum Conversion {
    IntToLong,
    LongToInt,
    IntToByte,
    IntToChar,
    IntToShort,
}

/// A comparison of two ints, or of one with 0 (JVMS 3.11.7).
#[derive(Clone, Copy)]
pub enum Test {
    Equal,
    NotEqual,
    Less,
    AtLeast,
    Greater,
    AtMost,
}

/// How many slots of the operands a stack move takes up (JVMS 3.6.2): a long or a double has two.
#[derive(Clone, Copy)]
pub enum Slots {
    Zero,
    One,
    Two,
}

/// A constant that names no object.
#[derive(Clone, Copy)]
pub enum Constant {
    Null,
    Int(i32),
    Long(i64),
    /// The bits of a float.
    Float(u32),
    /// The bits of a double.
    Double(u64),
}

/// How a field is accessed (JVMS 6, `getfield` to `putstatic`).
#[derive(Clone, Copy)]
pub enum Access {
    GetStatic,
    PutStatic,
    GetField,
    PutField,
}

/// How a method is invoked (JVMS 3.11.8).
#[derive(Clone, Copy)]
pub enum Mode {
    Virtual,
    Special,
    Static,
    Interface,
}

/// An exception that the machine makes itself (JVMS 2.16.4).
#[derive(Clone, Copy)]
pub enum Fault {
    NullPointer,
    Arithmetic,
    NegativeArraySize,
    ArrayIndex,
    ArrayStore,
    ClassCast,
    IllegalMonitorState,
    StringIndex,
}
