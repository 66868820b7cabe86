//! Worked examples of the heads of classes, of the library and of worlds of classes.
#![tactic(auto)]

#[cfg(test)]
mod heads;
#[cfg(test)]
mod library;
#[cfg(test)]
mod lookups;
