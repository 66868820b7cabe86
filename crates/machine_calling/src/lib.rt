//! The invoke instructions (The Java Virtual Machine Specification, second edition, 3.11.8 and 6,
//! `invokeinterface` to `invokevirtual`): the method that is to run is found and its arguments are
//! taken, and then a native method is called, a method of the library does what its rule says, and any
//! other gets a frame. The contract says that the state goes on standing for one of the class
//! machine's definition.
#![tactic(auto)]

mod entering;
mod invoking;
mod natives;
mod ran;
mod ruling;
mod running;

pub use invoking::invoke;
