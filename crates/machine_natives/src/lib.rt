//! Native methods (The Java Virtual Machine Specification, second edition, 2.10.3): what the script of a
//! run answers to a call of one, what becomes of the running frame then, and the step of a state
//! without frames, in which a native entry is called. Each contract says that the state goes on
//! standing for one of the class machine's definition.
#![tactic(auto)]

mod calling;
mod classes;
mod closing;
mod descriptors;
mod fitting;
mod responding;
mod response;
mod throwing;

pub use calling::{Called, call_native, end_script};
pub use classes::string_class;
pub use closing::close;
pub use descriptors::{class_in, is_int_of};
pub use responding::respond;
pub use response::Response;
pub use throwing::make_string;
