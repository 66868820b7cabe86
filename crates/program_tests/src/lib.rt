//! Tests of the whole program over shelves and sinks in memory: what is woven, and what is refused.
#![tactic(auto)]

#[cfg(test)]
mod refusals;
#[cfg(test)]
mod tests;
#[cfg(test)]
mod worlds;
