//! The code of class files at places, as the class machine reads it (The Java Virtual Machine
//! Specification, second edition, 3.10, 4.4, 4.7.3, 6). A place is a byte of a method's code, and a
//! method is one of a world of classes. Nothing here takes memory.
//!
//! The definition is `class_code` of `class_machine`, which finds the code of a method by names. Here
//! a method is found by its number; `specs/Programs.antt` says where the two agree.
#![tactic(auto)]

mod code;
mod descriptors;
mod handlers;
mod laws;
mod lines;
mod method_code;
mod names;
mod operation;
mod operations;
mod switches;
mod targets;

pub use code::code_of;
pub use descriptors::{kind_in, parameter_count, parameter_kind, result_type};
pub use handlers::Handler;
pub use laws::{
    code_gives, declared_is_first, first_is_found, first_is_named, first_is_numbered,
    found_is_first, selected_is_first, sound_is_program,
};
pub use method_code::{Line, MethodCode, MethodEntry};
pub use names::{interface_method_at, invoked};
pub use operation::{KeyTable, Operation};
