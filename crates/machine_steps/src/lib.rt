//! Steps of the class machine: which state of its definition a state in memory stands for, and what
//! becomes of a state once the running frame has made its turn (The Java Virtual Machine
//! Specification, second edition, 3.6.4, 3.6.5 and 3.10).
#![tactic(auto)]

mod faults;
mod going;
mod leaving;
mod messages;
mod raising;
mod running;
mod step;
mod telling;
mod unwinding;

pub use going::{give, go_on};
pub use leaving::leave;
pub use messages::message_of;
pub use raising::{fail, raise};
pub use running::{class_name, code_of_method, running_code, stands_at};
pub use step::Step;
pub use telling::tell;
