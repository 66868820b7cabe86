//! What becomes of a frame whose call of the library has come to its work: it goes on with the result,
//! an exception leaves it, a method gives the text that the call waits for, or the initialisers of a
//! class come first (The Java Virtual Machine Specification, second edition, 2.17.4, 3.6.4, 3.10; the
//! rules are those of `boot_library`).
#![tactic(auto)]

mod finishing;

pub use finishing::{Loading, end_call, finish_work, load};
