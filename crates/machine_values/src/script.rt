//! What is given to a run.

use aj_names::{InternalName, Items, MethodId};

/// What a native call answers.
#[derive(Drop)]
pub enum Answer {
    Int(i32),
    Long(i64),
    Null,
    Text(Items<u16>),
    Void,
    /// A new exception of the class, with a message.
    Throw(InternalName, Items<u16>),
}

/// The answers to the native calls of a run. Those from `next` on are left.
#[derive(Drop)]
pub struct Script {
    pub answers: Items<Answer>,
    pub next: u32,
}

/// An argument of an entry method.
#[derive(Drop)]
pub enum EntryArg {
    Int(i32),
    Long(i64),
    /// A new String of these units.
    Text(Items<u16>),
    /// A new array of new Strings.
    Texts(Items<Items<u16>>),
    Null,
}

/// The method at which a run starts, with its arguments.
#[derive(Drop)]
pub struct Entry {
    pub method: MethodId,
    pub args: Items<EntryArg>,
}
