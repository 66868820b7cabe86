//! Instructions that name nothing in the constant pool (The Java Virtual Machine Specification, second
//! edition, 3.10, 3.11 and 6): what becomes of a state once such an instruction has done what it does
//! to the running frame. Each contract says that the state goes on standing for one of the class
//! machine's definition. Only what makes an array or throws takes memory, and what enters a monitor.
#![tactic(auto)]

mod asking;
mod basics;
mod going;
mod performing;
mod replies;
mod taking;
mod throwing;

pub use basics::step_basic;
