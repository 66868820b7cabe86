//! The code of a method taken apart into instructions that name each other by number (The Java Virtual
//! Machine Specification, second edition, 4.7.3 and 6.4).
#![tactic(auto)]

mod block;
mod branch;
mod fault;
mod jumps;
mod laid_bytes;
mod laid_tables;
mod layout;
mod layout_fault;
mod method_code;
mod places;
mod ready;
mod row;
mod tables;
mod taking;
mod walk;
mod widening;

pub use block::{Block, BlockEntry, BlockTarget};
pub use fault::TakeApartFault;
pub use layout::lay_out;
pub use layout_fault::LayoutFault;
pub use method_code::{CodeEntry, Jump, Line, LineTable, MethodCode, Variable, VariableTable};
pub use ready::is_layable;
pub use taking::take_apart;
