//! The library's calls of the class machine (The Java Virtual Machine Specification, second edition, 3.6
//! and 6): the steps of calls of the library's methods, and of returns into such calls.
#![tactic(auto)]

mod executing;
mod stepping;

pub use stepping::step_library;
