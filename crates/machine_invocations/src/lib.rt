//! Calls of methods (The Java Virtual Machine Specification, second edition, 2.17.4, 3.6, 3.11.8, 5.4.3
//! and 6): which method a call runs, the frames that it and the initialisers of classes get, what
//! becomes of a result, and what a script answers to a native call. Each contract says that the state
//! goes on standing for one of the class machine's definition.
#![tactic(auto)]

mod entering;
mod initialisers;
mod leaving;
mod methods;
mod returning;
mod search;
mod selection;
mod showing;
mod texts;

pub use entering::{call_frame, enter, fits, push_call};
pub use initialisers::begin;
pub use leaving::drop_frame;
pub use methods::{
    Declaration, declared, declaring_class, is_constructor, is_native, is_private, is_static,
    is_synchronized, rule_of,
};
pub use returning::take_back;
pub use search::{class_of_members, class_of_object, find_method};
pub use selection::{find_selected, select, select_special, superclass_of};
pub use showing::show;
pub use texts::member_text;
