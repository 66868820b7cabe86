//! Worked examples of names, instructions, pools and class files.
#![tactic(auto)]

#[cfg(test)]
mod instructions;
#[cfg(test)]
mod judging;
#[cfg(test)]
mod names;
#[cfg(test)]
mod pools;
