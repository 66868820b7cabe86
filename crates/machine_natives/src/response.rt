//! Answers, as they are taken.

use machine_values::{Ref, Value};

/// What comes of an answer.
#[derive(Clone, Copy)]
pub enum Response {
    /// The call returns, with a result if its method has one.
    Returns(Option<Value>),
    /// The call throws this object, a new one.
    Throws(Ref),
    /// The answer is missing or doesn't fit.
    Lacks,
}
