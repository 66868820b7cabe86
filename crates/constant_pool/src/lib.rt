//! Edits of the constant pool of a class file: entries are appended, old ones keep their indices, and
//! equal entries are shared (The Java Virtual Machine Specification, second edition, 4.4).
#![tactic(auto)]

mod calls;
mod edit;
mod fault;

pub use edit::PoolEdit;
pub use fault::PoolFault;
