//! The instruction at the running frame's place, and the part of the machine whose step it is (The Java
//! Virtual Machine Specification, second edition, 3.6 and 6).
#![tactic(auto)]

mod running;

pub use running::{Running, running_operation};
