//! The instructions of compiled Java methods: what stands at a place in a method's code, and the bytes of an
//! instruction (the Java Virtual Machine Specification, second edition, chapters 6 and 9).
#![tactic(auto)]

mod decoding;
mod encoding;
mod fault;
mod form;
mod insn;
mod switch;
mod table;

pub use decoding::decode_at;
pub use encoding::{encode, length_of};
pub use fault::CodeFault;
pub use form::Form;
pub use insn::Insn;
pub use switch::{
    pair_count, pair_key, pair_offset, switch_default, table_count, table_high, table_low,
    table_offset,
};
pub use table::{form_of, mnemonic};
