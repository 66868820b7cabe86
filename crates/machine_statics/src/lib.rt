//! Instructions that may initialise a class, but for calls, and returns (The Java Virtual Machine
//! Specification, second edition, 2.17.4, 3.6.4, 5.5 and 6): the static fields, and objects that are
//! announced. Each contract says that the state goes on standing for one of the class machine's
//! definition.
#![tactic(auto)]

mod announcing;
mod fields;
mod getting;
mod operands;
mod output;
mod putting;
mod returning;

pub use announcing::new_object;
pub use getting::get_static;
pub use putting::put_static;
pub use returning::{leave_running, result_kind, result_of, show_result, step_return};
