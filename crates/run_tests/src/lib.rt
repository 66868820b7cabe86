//! Tests of the command `run` over shelves and sinks in memory.
#![tactic(auto)]

#[cfg(test)]
mod endings;
#[cfg(test)]
mod exceptions;
#[cfg(test)]
mod running;
