//! What the class machine computes with: values, a heap, frames, and what is observed of a run (The
//! Java Virtual Machine Specification, second edition, 2.5, 3.5, 3.6).
//!
//! `specs/Standing.antt` says which state of the machine of `class_machine` each of these states is.
#![tactic(auto)]

mod content;
mod fields;
mod frames;
mod heap;
mod locals;
mod names;
mod observed;
mod operands;
mod script;
mod state;
mod units;
mod values;

pub use content::Content;
pub use fields::Fields;
pub use frames::{Destination, Frame, Purpose, Wait};
pub use heap::Heap;
pub use locals::Locals;
pub use names::{Maker, Name};
pub use observed::{Ending, Event, Shown};
pub use operands::Operands;
pub use script::{Answer, Entry, EntryArg, Script};
pub use state::{Due, MachineState};
pub use units::Units;
pub use values::{Local, Ref, Value};
