//! Instructions that name something and initialise nothing (The Java Virtual Machine Specification,
//! second edition, 5.4.3, 5.5 and 6): fields of objects, tests of types, arrays of references,
//! constants, and switches. Each takes a step of the class machine's definition.
//!
//! What an instruction names is given by its name, as the constant pool has it. A call that fails
//! leaves the state as it was.
#![tactic(auto)]

mod arrays;
mod constants;
mod fields;
mod going;
mod missing;
mod named;
mod reading;
mod switches;
mod taking;
mod type_names;
mod types;

pub use arrays::new_reference_array;
pub use constants::{refer, refer_class};
pub use fields::{get_field, put_field};
pub use switches::switch;
pub use types::{check_cast, instance_of};
