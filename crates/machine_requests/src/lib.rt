//! What the heap, the static fields and the monitors answer to instructions (The Java Virtual Machine
//! Specification, second edition, chapter 6), as the class machine's definition has it.
//!
//! A world of the class machine is one that the heap and the tables stand for (`specs/Shares.antt`).
//! Each contract says that the reply, with the heap and the tables after it, stands for the
//! definition's answer (`specs/Replies.antt`).
#![tactic(auto)]

mod arrays;
mod elements;
mod fields;
mod laws;
mod monitors;
mod new_objects;
mod reply;
mod statics;
mod types;

pub use arrays::{array_length, array_load, array_store};
pub use fields::{get_field, put_field};
pub use laws::{
    class_names_are_plain, constant_shares, due_stays, fields_read, frames_stay, literal_filled,
    make_shares, makers_tell, places_tell, represents, store_shares, text_filled, texts_read,
    values_stay,
};
pub use monitors::{enter_monitor, leave_monitor};
pub use new_objects::{class_object, literal, make, make_array};
pub use reply::Reply;
pub use statics::{get_static, put_static};
pub use types::{cast, is_instance};
