//! The meaning of aspects: the join point machine, which runs classes under aspects by the turns of
//! the class machine, and what a weaving promises. The definitions stand in `specs/`.
#![tactic(auto)]

mod first_aspect;

pub use first_aspect::FirstAspect;
