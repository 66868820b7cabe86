//! What the command `run` is told and what it prints: the words that name an entry method, a number of
//! steps and the answers to native calls, and the lines of events and of the ending.
//!
//! Each form is a relation between a value and how it is written (`specs/`). Reading finds the value of
//! the relation, of which there is one at most, and finds none exactly where there is none.
#![tactic(auto)]

mod command;
mod entry;
mod fault;
mod names;
mod numbers;
mod printing;
mod script;
mod splits;
mod texts;
mod values;

pub use command::{RunWords, read_run};
pub use entry::{EntryWords, read_entry};
pub use fault::ScriptFault;
pub use numbers::read_steps;
pub use script::read_script;
pub use values::{ending_line, event_line, outcome_line, run_text};
