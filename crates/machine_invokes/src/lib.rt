//! The invoke instructions, up to where the method that is to run is known with its receiver and its
//! arguments (The Java Virtual Machine Specification, second edition, 2.17.4, 3.11.8, 5.4.3 and 6,
//! `invokeinterface` to `invokevirtual`). Running it is done elsewhere.
#![tactic(auto)]

mod begun;
mod belonging;
mod building;
mod callees;
mod choosing;
mod invocation;
mod peeks;
mod preparing;
mod selecting;
mod starting;
mod taking;
mod undoing;

pub use begun::have_begun;
pub use belonging::is_library_call;
pub use callees::Callee;
pub use choosing::{Choice, choose_null, choose_on, choose_static, find_instance, lacks_room};
pub use invocation::{Before, Invocation, Prepared};
pub use preparing::prepare;
pub use starting::{Start, start_static};
pub use taking::{
    are_settled, parameter_kinds, put_arguments_back, put_receiver_back, take_on, take_static,
};
pub use undoing::{restore_frame, undo};
