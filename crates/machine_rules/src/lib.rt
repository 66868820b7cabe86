//! What each method of the library does to the heap (The Java Virtual Machine Specification, second
//! edition, 2.8, 3.5.3; the rules are those of `boot_library`), as the class machine's definition has
//! it.
//!
//! Each contract says that the work, with the heap after it, stands for the definition's
//! (`specs/Works.antt`).
#![tactic(auto)]

mod arguments;
mod asking;
mod boxes;
mod buffering;
mod class_objects;
mod classes;
mod describing;
mod exceptions;
mod fields;
mod finishing;
mod identity;
mod laws;
mod numbers;
mod objects;
mod printing;
mod reading;
mod resuming;
mod ruling;
mod selecting;
mod spelling;
mod strings;
mod texts;
mod work;

pub use laws::bare_types;
pub use resuming::resume;
pub use ruling::by_rule;
pub use work::Work;
