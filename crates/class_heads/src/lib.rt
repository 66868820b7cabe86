//! The heads of classes: what a class declares without its code, and the definitions of what a world
//! of classes is: supertypes, the searches of members, and what may be wrong with the classes (The
//! Java Virtual Machine Specification, second edition, 2.6.7, 2.8, 4.1, 5.4.3).
#![tactic(auto)]

mod fault;
mod heads;
mod reserved;
mod types;

pub use fault::WorldFault;
pub use heads::head_of;
pub use reserved::is_reserved;
pub use types::{ClassHead, FieldHead, MethodHead};
