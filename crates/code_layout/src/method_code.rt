//! The code of a method by instruction numbers.

use opcode_table::Insn;
use sqlite_items::Items;

/// Where an instruction may lead, but for the next one. It is empty for one that does not branch. A
/// branch has no keys, and its target in `to`. A switch has its keys in order, and in `to` the default's
/// target and then one for each key (JVMS 6.4).
#[derive(Debug, Drop)]
pub struct Jump<T> {
    pub keys: Items<i32>,
    pub to: Items<T>,
}

/// An entry of an exception table by instruction numbers: the range from `start` to before `end`, which
/// may be the number of all instructions, the handler, and the index of the class that is caught, or 0
/// for any (JVMS 4.7.3).
#[derive(Clone, Copy, PartialEq, Eq, Debug)]
pub struct CodeEntry {
    pub start: u32,
    pub end: u32,
    pub handler: u32,
    pub catch_type: u16,
}

/// An instruction's number, and the line that begins there (JVMS 4.7.8).
#[derive(Clone, Copy, PartialEq, Eq, Debug)]
pub struct Line {
    pub start: u32,
    pub line: u16,
}

/// A LineNumberTable, with the index of its attribute's name (JVMS 4.7.8).
#[derive(Debug, Drop)]
pub struct LineTable {
    pub name: u16,
    pub rows: Items<Line>,
}

/// A local variable: it has a value from the instruction `start` to before `end`, which may be the
/// number of all instructions (JVMS 4.7.9). The name and the descriptor or signature are indices of the
/// pool, and `index` is the local.
#[derive(Clone, Copy, PartialEq, Eq, Debug)]
pub struct Variable {
    pub start: u32,
    pub end: u32,
    pub name: u16,
    pub descriptor: u16,
    pub index: u16,
}

/// A LocalVariableTable, or a LocalVariableTypeTable where `generic`, with the index of its attribute's
/// name (JVMS 4.7.9; JVMS of Java 5, 4.8.14).
#[derive(Debug, Drop)]
pub struct VariableTable {
    pub name: u16,
    pub generic: bool,
    pub rows: Items<Variable>,
}

/// The code of a method, its instructions numbered from 0. There is one jump for each instruction. The
/// jumps count, and the offset of a branch and the place of a switch's table do not.
#[derive(Debug, Drop)]
pub struct MethodCode {
    pub insns: Items<Insn>,
    pub targets: Items<Jump<u32>>,
    pub entries: Items<CodeEntry>,
    pub lines: Items<LineTable>,
    pub variables: Items<VariableTable>,
    pub max_stack: u16,
    pub max_locals: u16,
}
