//! From the class files of a folder to a run: their world, the method that an entry names, and what is
//! observed from there.
#![tactic(auto)]

mod fault;
mod running;

pub use fault::RunFault;
pub use running::run_classes;
