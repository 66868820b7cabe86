//! What the tests of the whole program share: runs over a shelf and a sink in memory, and class files as bytes
//! and as class text. Only tests stand on it, and what it answers is what they ask, so its calls have no
//! clauses of their own.
#![tactic(auto)]

pub mod classes;
pub mod runs;
pub mod texts;
