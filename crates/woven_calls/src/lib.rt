//! What weaving one before advice into the calls of classes makes of the classes, and that the woven
//! classes run as the join point machine does on the classes and the aspect.
#![tactic(auto)]

mod laws;

pub use laws::{no_aspect_behaves, woven_behaves};
