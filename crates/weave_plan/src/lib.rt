//! From the files that were read to the files to write, in memory alone: which classes and aspects the
//! files say, whether each is of a form that is built, and the woven classes.
#![tactic(auto)]

mod built;
mod class_files;
mod file_names;
mod forms;
mod outputs;
mod parsing;
mod planning;
mod worlds;

pub use class_files::{ReadFault, read_classes};
pub use file_names::utf8_of;
pub use planning::{NamedFile, PlanFault, plan};
