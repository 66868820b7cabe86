//! How a run starts (The Java Virtual Machine Specification, second edition, 2.17.1): which method the
//! words of an entry name, and the first state of a run at it. The contracts say that both are those
//! of the class machine's definition.
#![tactic(auto)]

mod arguments;
mod descriptors;
mod entering;
mod entries;
mod starting;
mod taking;

pub use entries::find_entry;
pub use starting::start;
