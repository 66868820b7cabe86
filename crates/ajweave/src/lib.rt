//! The program's top call: the words of a command line, a shelf of files and a sink for what is
//! printed go in, and a status comes out.
#![tactic(auto)]

mod command;
mod input;
mod report;
mod run;
mod script;
mod status;
mod stop;
mod top;
mod weave;

pub use status::{Refusal, Status};
pub use top::weaver_main;
