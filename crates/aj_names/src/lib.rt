//! Names, descriptors and modified UTF-8 of class files, both ways, and a reader of big-endian numbers.
#![tactic(auto)]

mod byte_string;
mod cursor;
mod descriptors;
mod hierarchy;
mod ids;
mod internal_name;
mod modified_utf8;
mod names;
mod printing;
mod reading;
mod types;

pub use byte_string::ByteString;
pub use cursor::Cursor;
pub use hierarchy::Hierarchy;
pub use ids::{AdviceId, AspectId, ClassId, FieldId, MethodId};
pub use internal_name::InternalName;
pub use modified_utf8::{is_utf8, utf8_fault, utf8_read, utf8_write};
pub use names::{is_class_name, is_member_name};
pub use reading::{
    is_array_descriptor, is_field_descriptor, is_internal_name, is_method_descriptor, method_slots,
};
pub use sqlite_items::Items;
pub use types::{Base, FieldName, FieldType, MemberName, MethodName, MethodType, NameFault};
