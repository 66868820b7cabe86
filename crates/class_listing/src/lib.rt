//! Class text of a class file (The Java Virtual Machine Specification, second edition, chapter 4).
#![tactic(auto)]

mod body;
mod lengths;
mod listed;
mod listing;
mod names;
mod operations;
mod places;
mod walk;

pub use listing::to_text;
