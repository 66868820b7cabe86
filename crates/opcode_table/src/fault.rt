//! Why no instruction stands at a place.

use std::error::Error;
use std::fmt;

/// Why no instruction stands at a place of a method's code (JVMS 4.8.1). Each names the place, in bytes from the
/// start of the code, at which decoding began.
#[derive(Clone, Copy, Debug, PartialEq, Eq)]
pub enum CodeFault {
    /// The byte at the place, the second part, is no opcode (JVMS 9).
    Opcode(u32, u8),
    /// The code ends before the instruction does, or at the place.
    Cut(u32),
    /// The byte after `wide` is no opcode of a local variable's instruction (JVMS 6.4, "wide").
    Wide(u32),
    /// The low number of a `tableswitch` is above its high number, or the number of pairs of a `lookupswitch` is
    /// negative, or its keys do not ascend (JVMS 6.4).
    Switch(u32),
}

impl fmt::Display for CodeFault {
    fn fmt<W: fmt::Write>(&self, f: &mut fmt::Formatter<W>) -> fmt::Result {
        match self {
            CodeFault::Opcode(pc, byte) => write!(f, "no opcode {byte} at {pc}"),
            CodeFault::Cut(pc) => write!(f, "the code ends in the instruction at {pc}"),
            CodeFault::Wide(pc) => write!(f, "nothing to widen at {pc}"),
            CodeFault::Switch(pc) => write!(f, "a wrong switch at {pc}"),
        }
    }
}

impl Error for CodeFault {}
