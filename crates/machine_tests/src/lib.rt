//! Worked examples of what instructions do to frames, and of code at places.
#![tactic(auto)]

#[cfg(test)]
mod code;
#[cfg(test)]
mod frames;
