//! A line of class text.

use aj_names::ByteString;
use sqlite_items::Items;

/// A line of class text. Names and descriptors are in modified UTF-8, as in a class file.
#[derive(Debug, Drop)]
pub enum Line {
    /// `class NAME super NAME version N [flags N] [interface NAME {NAME}]`.
    Class {
        name: ByteString,
        super_name: ByteString,
        version: u16,
        flags: u16,
        interfaces: Items<ByteString>,
    },
    /// `field [static] NAME DESCRIPTOR [flags N]`.
    Field(MemberHead),
    /// `method [static] NAME DESCRIPTOR [flags N] stack N locals N`.
    Method {
        head: MemberHead,
        stack: u16,
        locals: u16,
    },
    /// `method NAME DESCRIPTOR flags N none`: a method without code.
    Bare(MemberHead),
    /// `[LABEL:] MNEMONIC OPERANDS`.
    Step {
        label: Option<ByteString>,
        operation: Operation,
    },
    /// `catch FROM TO HANDLER (NAME | any)`: for `any` there is no class.
    Catch {
        from: ByteString,
        to: ByteString,
        handler: ByteString,
        class: Option<ByteString>,
    },
    /// `end`, behind a method with code.
    End,
}

/// What a line says of a field or a method.
#[derive(Debug, Drop)]
pub struct MemberHead {
    pub name: ByteString,
    pub descriptor: ByteString,
    pub flags: u16,
}

/// An instruction with what its operands name (JVMS 6.4). An `op` is an opcode of that form.
#[derive(Debug, Drop)]
pub enum Operation {
    /// An opcode without operands.
    Plain(u8),
    /// `bipush`, with what it pushes.
    Bipush(i8),
    /// `sipush`, with what it pushes.
    Sipush(i16),
    /// A load or a store of a local variable, or `ret`.
    Local {
        op: u8,
        index: u16,
    },
    /// `iinc`.
    Iinc {
        index: u16,
        by: i16,
    },
    /// `ldc` and `ldc_w`.
    Constant {
        op: u8,
        constant: Constant,
    },
    /// `ldc2_w` of a long.
    Long(i64),
    /// `ldc2_w` of the bits of a double.
    Double(u64),
    /// An instruction that names a field or a method.
    Member {
        op: u8,
        class: ByteString,
        name: ByteString,
        descriptor: ByteString,
    },
    /// `new`, `anewarray`, `checkcast` and `instanceof`.
    Class {
        op: u8,
        class: ByteString,
    },
    /// `newarray`, with the code of its type.
    NewArray(u8),
    /// `multianewarray`, with its number of dimensions.
    Multi {
        class: ByteString,
        dims: u8,
    },
    /// A branch to a label.
    Branch {
        op: u8,
        to: ByteString,
    },
    /// `tableswitch`: the labels of the keys from `low` on, and that of all others.
    TableSwitch {
        low: i32,
        labels: Items<ByteString>,
        default: ByteString,
    },
    /// `lookupswitch`: the keys, which rise, with their labels, and the label of all others.
    LookupSwitch {
        cases: Items<Case>,
        default: ByteString,
    },
}

/// What `ldc` and `ldc_w` push (JVMS 6.4).
#[derive(Debug, Drop)]
pub enum Constant {
    Int(i32),
    /// The bits of a float.
    Float(u32),
    /// A text, in modified UTF-8.
    Text(ByteString),
    /// A class or an array type.
    Class(ByteString),
}

/// A key of a `lookupswitch` and its label.
#[derive(Debug, Drop)]
pub struct Case {
    pub key: i32,
    pub label: ByteString,
}
