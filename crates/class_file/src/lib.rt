//! What a class file is: the types of its parts, what the indices of its pool stand for, and the
//! definitions of its spelling and of its form (The Java Virtual Machine Specification, second
//! edition, chapter 4, with the changes of Java 5).
#![tactic(auto)]

mod access;
mod first_form;
mod names;
mod pool;
mod sound;
mod text;
mod types;

pub use access::AccessFlags;
pub use first_form::{is_first_form, is_identifier};
pub use names::{
    NamedType, Reference, class_at, class_name, entry_at, field_at, method_at, named_type_at,
    string_at, text_at,
};
pub use pool::PoolEntry;
pub use sound::{entries_are_sound, entry_is_sound};
pub use text::{
    is_class_name, is_field_descriptor, is_internal_name, is_member_name, is_method_descriptor,
    is_method_descriptor_with, is_utf8,
};
pub use types::{
    Attribute, ClassFile, CodeAttr, CodeAttribute, CodeContent, Content, ExceptionEntry,
    InnerClass, LineRow, Member, VariableRow,
};
