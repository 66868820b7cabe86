//! Frames.

use crate::locals::Locals;
use crate::operands::Operands;
use crate::values::Ref;
use aj_names::{ClassId, MethodId};

/// What a library call does with a text, once a method has given it.
#[derive(Clone, Copy, Debug)]
pub enum Destination {
    /// Prints it, with a line feed or without.
    Prints(bool),
    /// Appends it to the buffer.
    Appends(Ref),
    /// Gives it.
    Gives,
}

/// A library call that waits for a text.
#[derive(Clone, Copy, Debug)]
pub struct Wait {
    /// The text is the message of this exception, and the exception's description goes on.
    pub describes: Option<Ref>,
    pub destination: Destination,
}

/// What becomes of a frame's result.
#[derive(Clone, Copy, Debug)]
pub enum Purpose {
    /// It goes to the frame below, which waits at its call.
    Ordinary,
    /// It is a this or super call of the constructor below.
    Constructs,
    /// It initialises the class: the frame below goes on where it stands.
    Initialises(ClassId),
    /// It goes to the library call of the frame below.
    Within(Wait),
}

/// The frame of a method (JVMS 3.6).
#[derive(Drop)]
pub struct Frame {
    pub method: MethodId,
    /// The place in the code of the instruction that comes next.
    pub pc: u32,
    /// The operands, and their room.
    pub operands: Operands,
    pub locals: Locals,
    /// Of a synchronized method, the object whose monitor it entered.
    pub monitor: Option<Ref>,
    /// Of a constructor, whether its this or super call has returned.
    pub constructed: bool,
    pub purpose: Purpose,
}
