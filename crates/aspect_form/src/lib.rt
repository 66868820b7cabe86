//! The text of an aspect of the form that is built:
//! `aspect NAME { before(): call(void CLASS.METHOD()) { System.out.println("TEXT"); } }`.
#![tactic(auto)]

mod fault;
mod form;
mod tokens;

pub use fault::AspectFault;
pub use form::read_aspect;
