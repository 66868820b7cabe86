//! What an instruction does to its frame (The Java Virtual Machine Specification, second edition,
//! chapter 6), as the class machine's definition has it.
//!
//! The operands and locals of a frame stand for those of the definition, under each way of naming
//! classes, methods and objects (`specs/Naming.antt`). Only what gathers the arguments of a call or
//! the sizes of arrays takes memory.
#![tactic(auto)]

mod arithmetic;
mod arrays;
mod calls;
mod control;
mod effect;
mod instructions;
mod kinds;
mod locals;
mod named;
mod numbers;
mod operands;
mod peeks;
mod sizes;
mod stack;
mod storage;
mod tokens;
mod undoing;

pub use calls::{Call, Receiver, call_on, call_static};
pub use effect::{Effect, Request};
pub use instructions::perform;
pub use kinds::{is_of, is_same_kind};
pub use named::{
    Written, get_field, pop_object, push_constant, put_field, put_static, room_for, switch,
};
pub use peeks::{can_call_static, can_put_static};
pub use sizes::{pop_size, pop_sizes};
pub use tokens::{announce, fill_in, next_number};
pub use undoing::{put_back, put_call_back, put_sizes_back, restore};
