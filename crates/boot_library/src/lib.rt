//! The library: the classes that are there without being given, as heads, and what their methods
//! mean, as rules.
#![tactic(auto)]

mod heads;
mod lookup;
mod rule;
mod sections;
mod table;

pub use heads::library_heads;
pub use lookup::library_rule;
pub use rule::{LibraryRule, Primitive, Spelling};
