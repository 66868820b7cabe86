//! Runs of the class machine: the step of the whole machine, which one of its three parts takes, and
//! what is observed of a run within a number of steps (The Java Virtual Machine Specification, second
//! edition, 2.17.1, 2.17.9). Each contract says that it is what the machine's definition makes of it.
#![tactic(auto)]

mod report;
mod running;
mod stepping;

pub use report::Report;
pub use running::run;
pub use stepping::step;
