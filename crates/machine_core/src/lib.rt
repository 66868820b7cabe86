//! The core of the class machine (The Java Virtual Machine Specification, second edition, 3.11 and 6):
//! the steps of all instructions but returns, calls, and those that initialise a class. Which
//! instructions these are is said by their forms alone.
#![tactic(auto)]

mod executing;
mod stepping;

pub use stepping::step_core;
