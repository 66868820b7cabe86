//! What is looked up among the classes: classes by name, members by the searches of classes, and
//! whether one type is a subtype of another. No look-up takes memory.

mod in_order;
mod members;
mod naming;
mod numbers;
mod places;
mod queries;
mod subtypes;
mod upward;

pub(crate) use in_order::in_order;
