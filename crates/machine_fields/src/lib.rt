//! What the class machine asks of the classes of a world about the objects of a heap (The Java Virtual
//! Machine Specification, second edition, 2.6.7, 2.9.1, 5.4.3.2): the class of an object, whether it
//! is one of another type, and where its fields stand.
//!
//! Of the look-ups none takes memory. Each contract has the form that the calls of `machine_requests`
//! ask for, at the setting of the world (`specs/Settings.antt`).
#![tactic(auto)]

mod constants;
mod initial;
mod laws;
mod new_objects;
mod objects;
mod positions;
mod types;

pub use constants::units_of;
pub use initial::initial_value;
pub use laws::{
    fields_apart, first_field_named, first_field_numbered, found_is_field, found_is_first,
    program_is_distinct,
};
pub use new_objects::{element_of, field_types, make_object};
pub use objects::{class_at, is_object_below, may_hold};
pub use positions::{cause_position, field_position, message_position, value_position};
