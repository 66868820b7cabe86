//! The code of a method.

ghost use Rattle.std.specs.Prelude.{◌<◌, ◌^◌, length};

use crate::operation::Operation;
use class_file::{CodeAttr, PoolEntry};

/// The code of a method, and the pool that it speaks of (JVMS 4.7.3).
#[derive(Clone, Copy)]
pub struct MethodCode<'a> {
    pub pool: &'a [PoolEntry],
    pub code: &'a CodeAttr,
    ghost small: { length code.now.code < 2 ^ 16 },
}

/// An instruction, and the place behind it.
#[derive(Clone, Copy)]
pub struct Line {
    pub operation: Operation,
    pub next: u32,
}

/// What a call of a method needs to know: the operand slots and the locals that its code may use.
#[derive(Clone, Copy, Debug, PartialEq, Eq)]
pub struct MethodEntry {
    pub room: u16,
    pub locals: u16,
}
