//! Texts that come back into calls of the library: a `toString` or `getMessage` of a program's class
//! returns into the call that waits for its text (The Java Virtual Machine Specification, second
//! edition, 3.6.4; the calls are those of `boot_library`'s rules).
#![tactic(auto)]

mod returning;

pub use returning::return_text;
