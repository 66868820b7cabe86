//! The lines of class text: what a person writes a class file as (The Java Virtual Machine
//! Specification, second edition, chapter 4), line by line.
#![tactic(auto)]

mod fault;
mod fields;
mod heads;
mod line;
mod numbers;
mod operations;
mod printing;
mod quotes;
mod reading;
mod recoding;
mod text;
mod units;
mod utf8;
mod words;

pub use fault::LineFault;
pub use fields::is_blank;
pub use line::{Case, Constant, Line, MemberHead, Operation};
pub use operations::is_class_constant;
pub use printing::{put_line, put_text_line};
pub use reading::read_line;
pub use text::read_text_line;
pub use utf8::put_utf8;
