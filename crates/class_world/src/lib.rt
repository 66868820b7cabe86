//! The classes that there are: a world of class files and of a library's classes, with tables by which
//! classes, supertypes and members are found (The Java Virtual Machine Specification, second edition,
//! 2.6.7, 2.8, 4.1, 5.4.3).
#![tactic(auto)]

mod building;
mod circles;
mod copies;
mod faults;
mod lookups;
mod names;
mod numbers;
mod supers;
mod tables;
mod world;

pub use class_heads::{ClassHead, FieldHead, MethodHead, WorldFault};
pub use world::World;
