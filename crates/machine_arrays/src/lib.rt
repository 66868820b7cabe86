//! New arrays, and the arrays in them (The Java Virtual Machine Specification, second edition, 2.15 and
//! 6, `multianewarray`). Each contract says that the heap, or the state, goes on standing for one of
//! the class machine's definition.
#![tactic(auto)]

mod making;
mod named;
mod stepping;

pub use making::make_arrays;
pub use named::has_dimensions;
pub use stepping::step_new_arrays;
