//! The calls of the class machine (The Java Virtual Machine Specification, second edition, 2.17.4, 3.6
//! and 6): the steps of returns, of calls of all methods but the library's, of static fields and of
//! `new`, and the step of a state without an instruction. What goes to a call of the library is left.
#![tactic(auto)]

mod executing;
mod stepping;

pub use stepping::step_calls;
