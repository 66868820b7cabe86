//! Class text: what a person writes a class file as (The Java Virtual Machine Specification, second
//! edition, chapter 4), read as a class file.
#![tactic(auto)]

mod bytes;
mod fault;
mod labels;
mod making;
mod members;
mod numbered;
mod order;
mod pool;
mod reading;
mod slots;

pub use fault::TextFault;
pub use reading::to_class;
