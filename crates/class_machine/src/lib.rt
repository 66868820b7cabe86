//! The class machine: how classes run (The Java Virtual Machine Specification, second edition,
//! chapters 2, 3, 5 and 6), as a definition. It is a machine of `event_machine`: a step function of
//! its states, whose events are prints and native calls.
//!
//! The definition stands in `specs/`, by subject. What an instruction does to its frame
//! (`specs/Effect.antt`) knows no place, no code and no heap; what becomes of the one frame
//! (`specs/Turn.antt`) and of the frames below it (`specs/Machine.antt`) stand apart. Places and the
//! code at them are a parameter, and so are the classes. On class files (`specs/Run.antt`) the classes
//! are the heads of the files and behind them the library's: what is a subtype of what, where a member
//! is found and which method is selected are definitions of `class_heads`, and which rule a method of
//! the library has is one of `boot_library`. `specs/Examples` has small programs whose runs are
//! computed by the definition.
//!
//! The types below are those that stepping code shares with the definition: they tell apart the
//! instructions of one semantic form.
#![tactic(auto)]

pub mod kinds;
pub mod meaning;
pub mod table;
