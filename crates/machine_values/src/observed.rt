//! What is observed of a run.

ghost use Rattle.std.specs.Prelude.{◌≡◌, ◌++◌, IfOk};
ghost use Rattle.class_machine.specs.LibraryCalls.{line_feed};
ghost use Rattle.machine_values.specs.declared.observed.Event.TheVariants.{Print};

use aj_names::{FieldType, InternalName, Items, MethodName};
use std::alloc::{AllocError, Global};

/// A value as an event or an ending shows it.
#[derive(Drop)]
pub enum Shown {
    Int(i32),
    Long(i64),
    /// The bits of a float.
    Float(u32),
    /// The bits of a double.
    Double(u64),
    Null,
    /// A String, by its UTF-16 units.
    Text(Items<u16>),
    /// The object that stands for a class or an array type.
    ClassObject(FieldType),
    /// Any other object: the one of this number that was made of its class.
    Object(InternalName, u64),
    /// An array: the one of this number that was made of its type.
    Array(FieldType, u64),
}

/// What a run does that is seen.
#[derive(Drop)]
pub enum Event {
    /// A text of UTF-16 units goes to the standard output.
    Print(Items<u16>),
    /// A native method is called. The receiver of an instance method is the first value.
    Native(MethodName, Items<Shown>),
}

impl Event {
    /// The event of a text that is printed, with a line feed behind it or without.
    pub fn printed(alloc: Global, units: &[u16], line: bool) -> Result<Event, AllocError>
        ensures { IfOk result (λ event. event ≡ Print (units.now ++ line_feed line)) }
    {
        let mut text = Vec::from_slice(alloc, units)?;
        if line {
            text.push(10)?;
        }
        Ok(Event::Print(Items::from_vec(text)))
    }
}

/// How a run ends.
#[derive(Drop)]
pub enum Ending {
    /// The entry method returned, with its result unless it is void.
    Returned(Option<Shown>),
    /// An exception left the entry method: its class, and its message unless that is null.
    Uncaught(InternalName, Option<Items<u16>>),
    /// An exception left the initialiser of this class (JVMS 2.17.5).
    InitFailed(InternalName),
    /// `System.exit` was called.
    Exit(i32),
    /// The opcode computes with floating-point numbers.
    Unmodelled(u8),
    /// A class or a member isn't there: the dotted class, and a dot and the member's name if there is
    /// one.
    Unresolved(Items<u8>),
    /// A native call found no answer that fits it.
    ScriptEnds,
    /// The code did what no verified code does.
    Broken,
}
