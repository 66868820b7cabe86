//! What the program asks of the world outside: named files on a shelf, and a sink for printed bytes.
//!
//! The traits [`Shelf`] and [`Sink`] say what each answer means. [`MemShelf`] and [`MemSink`] keep
//! their contents in memory and tell them. [`FolderShelf`] and [`StdSink`] stand over real files and
//! standard output, and tell nothing.
#![tactic(auto)]

mod folder_shelves;
mod memory_shelves;
mod memory_sinks;
pub mod names;
mod schedules;
pub mod shelves;
pub mod sinks;
mod std_sinks;
mod walks;

pub use folder_shelves::FolderShelf;
pub use memory_shelves::MemShelf;
pub use memory_sinks::MemSink;
pub use names::Name;
pub use shelves::{Shelf, ShelfFault};
pub use sinks::{Sink, SinkFault};
pub use std_sinks::StdSink;
