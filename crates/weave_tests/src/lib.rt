//! Worked examples of the texts of aspects, and of shelves and sinks.
#![tactic(auto)]

#[cfg(test)]
mod aspects;
#[cfg(test)]
mod outside;
