//! Worked examples of code that is taken apart and laid out.
#![tactic(auto)]

#[cfg(test)]
mod again;
#[cfg(test)]
mod blocks;
#[cfg(test)]
mod laid;
#[cfg(test)]
mod taken;
