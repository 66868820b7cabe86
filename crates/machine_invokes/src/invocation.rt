//! Methods that are to run.

use aj_names::{ClassId, Items, MethodId};
use machine_steps::Step;
use machine_values::{Local, Purpose, Ref, Value};

/// What an invocation took and changed, so that it can be undone.
#[derive(Drop)]
pub enum Before {
    /// The arguments. Where classes were marked as begun, which had begun before.
    Arguments(Option<Items<bool>>),
    /// The receiver and the arguments.
    Receiver,
    /// The token of this class and number, and the arguments. Then each copy of the token became a new
    /// object; what the frame held before, the last operand topmost.
    Token(ClassId, u64, Items<Value>, Items<Local>),
}

/// A method that is to run on its receiver, if it has one, and with its arguments.
#[derive(Drop)]
pub struct Invocation {
    pub method: MethodId,
    pub receiver: Option<Ref>,
    pub arguments: Vec<Value>,
    /// What becomes of its result.
    pub purpose: Purpose,
    pub before: Before,
}

/// What an invocation comes to.
#[derive(Drop)]
pub enum Prepared {
    /// The step is done.
    Done(Step),
    /// The method is to run.
    Runs(Invocation),
}
