//! Worked examples of class text.
#![tactic(auto)]

#[cfg(test)]
mod back;
#[cfg(test)]
mod classes;
#[cfg(test)]
mod lines;
