//! Weaving one before advice into the calls of classes: a call of the advice's method is put before
//! each call that the pointcut matches.
#![tactic(auto)]

mod advice;
mod code;
mod entries;
mod marks;
mod methods;
mod weave;

pub use advice::aspect_class;
pub use weave::weave_classes;
