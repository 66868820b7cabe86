//! Judges the constant pool and the code of a class file, each in time linear in its bytes (the Java
//! Virtual Machine Specification, second edition, 4.4, 4.7.3 and 4.8.1).
#![tactic(auto)]

mod code;
mod forms;
mod instructions;
mod operands;
mod pool;
mod starts;
mod targets;

pub use code::code_fault;
pub use forms::TextForms;
pub use pool::pool_fault;
pub use starts::Starts;
