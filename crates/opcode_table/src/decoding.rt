//! What stands at a place in a method's code.

ghost use Rattle.std.specs.Prelude.{◌≡◌, ◌<◌, ◌^◌, true, false, length, IfOk};
ghost use Rattle.opcode_table.specs.Decoding.{u2, s1, s2, s4, one_byte, two_bytes, three_bytes, four_bytes, after_wide, widened, operands, by_form, decoded};
ghost use Rattle.opcode_table.specs.Spelling.{Stands};
ghost use Rattle.opcode_table.specs.Table.{form_of};

use crate::fault::CodeFault;
use crate::form::Form;
use crate::insn::Insn;
use crate::switch::{lookup_switch, table_switch};
use crate::table::form_of;

fn bipush(pc: u32, bytes: &[u8]) -> Result<(Insn, u32), CodeFault>
    ensures { result ≡ one_byte pc 1 bytes.now (λ a. Insn.Bipush (s1 a)) }
{
    match bytes {
        [a, ..] => Ok((Insn::Bipush(a.cast_signed()), 2)),
        _ => Err(CodeFault::Cut(pc)),
    }
}

fn sipush(pc: u32, bytes: &[u8]) -> Result<(Insn, u32), CodeFault>
    ensures { result ≡ two_bytes pc 1 bytes.now (λ a b. Insn.Sipush (s2 a b)) }
{
    match bytes {
        [a, b, ..] => {
            let value = u16::from_be_bytes([*a, *b]).cast_signed();
            Ok((Insn::Sipush(value), 3))
        }
        _ => Err(CodeFault::Cut(pc)),
    }
}

fn local(pc: u32, op: u8, bytes: &[u8]) -> Result<(Insn, u32), CodeFault>
    ensures { result ≡ one_byte pc 1 bytes.now (λ a. Insn.Local op a false) }
{
    match bytes {
        [index, ..] => {
            let index = u16::from(*index);
            Ok((
                Insn::Local {
                    op,
                    index,
                    wide: false,
                },
                2,
            ))
        }
        _ => Err(CodeFault::Cut(pc)),
    }
}

fn increment(pc: u32, bytes: &[u8]) -> Result<(Insn, u32), CodeFault>
    ensures { result ≡ two_bytes pc 1 bytes.now (λ a b. Insn.Iinc a (s1 b) false) }
{
    match bytes {
        [index, by, ..] => {
            let index = u16::from(*index);
            let by = i16::from(by.cast_signed());
            Ok((
                Insn::Iinc {
                    index,
                    by,
                    wide: false,
                },
                3,
            ))
        }
        _ => Err(CodeFault::Cut(pc)),
    }
}

fn narrow_pool(pc: u32, op: u8, bytes: &[u8]) -> Result<(Insn, u32), CodeFault>
    ensures { result ≡ one_byte pc 1 bytes.now (λ a. Insn.Pool op a) }
{
    match bytes {
        [index, ..] => {
            let index = u16::from(*index);
            Ok((Insn::Pool { op, index }, 2))
        }
        _ => Err(CodeFault::Cut(pc)),
    }
}

fn pool(pc: u32, op: u8, bytes: &[u8]) -> Result<(Insn, u32), CodeFault>
    ensures { result ≡ two_bytes pc 1 bytes.now (λ a b. Insn.Pool op (u2 a b)) }
{
    match bytes {
        [a, b, ..] => {
            let index = u16::from_be_bytes([*a, *b]);
            Ok((Insn::Pool { op, index }, 3))
        }
        _ => Err(CodeFault::Cut(pc)),
    }
}

fn interface(pc: u32, bytes: &[u8]) -> Result<(Insn, u32), CodeFault>
    ensures { result ≡ four_bytes pc 1 bytes.now (λ a b c d. Insn.Interface (u2 a b) c d) }
{
    match bytes {
        [a, b, count, last, ..] => {
            let index = u16::from_be_bytes([*a, *b]);
            Ok((
                Insn::Interface {
                    index,
                    count: *count,
                    last: *last,
                },
                5,
            ))
        }
        _ => Err(CodeFault::Cut(pc)),
    }
}

fn new_array(pc: u32, bytes: &[u8]) -> Result<(Insn, u32), CodeFault>
    ensures { result ≡ one_byte pc 1 bytes.now (λ a. Insn.NewArray a) }
{
    match bytes {
        [code, ..] => Ok((Insn::NewArray(*code), 2)),
        _ => Err(CodeFault::Cut(pc)),
    }
}

fn multi(pc: u32, bytes: &[u8]) -> Result<(Insn, u32), CodeFault>
    ensures { result ≡ three_bytes pc 1 bytes.now (λ a b c. Insn.Multi (u2 a b) c) }
{
    match bytes {
        [a, b, dims, ..] => {
            let index = u16::from_be_bytes([*a, *b]);
            Ok((Insn::Multi { index, dims: *dims }, 4))
        }
        _ => Err(CodeFault::Cut(pc)),
    }
}

fn branch(pc: u32, op: u8, bytes: &[u8]) -> Result<(Insn, u32), CodeFault>
    ensures { result ≡ two_bytes pc 1 bytes.now (λ a b. Insn.Branch op (s2 a b)) }
{
    match bytes {
        [a, b, ..] => {
            let offset = i32::from(u16::from_be_bytes([*a, *b]).cast_signed());
            Ok((Insn::Branch { op, offset }, 3))
        }
        _ => Err(CodeFault::Cut(pc)),
    }
}

fn wide_branch(pc: u32, op: u8, bytes: &[u8]) -> Result<(Insn, u32), CodeFault>
    ensures { result ≡ four_bytes pc 1 bytes.now (λ a b c d. Insn.Branch op (s4 a b c d)) }
{
    match bytes {
        [a, b, c, d, ..] => {
            let offset = u32::from_be_bytes([*a, *b, *c, *d]).cast_signed();
            Ok((Insn::Branch { op, offset }, 5))
        }
        _ => Err(CodeFault::Cut(pc)),
    }
}

fn wide_local(pc: u32, op: u8, bytes: &[u8]) -> Result<(Insn, u32), CodeFault>
    ensures { result ≡ two_bytes pc 2 bytes.now (λ a b. Insn.Local op (u2 a b) true) }
{
    match bytes {
        [a, b, ..] => {
            let index = u16::from_be_bytes([*a, *b]);
            Ok((
                Insn::Local {
                    op,
                    index,
                    wide: true,
                },
                4,
            ))
        }
        _ => Err(CodeFault::Cut(pc)),
    }
}

fn wide_increment(pc: u32, bytes: &[u8]) -> Result<(Insn, u32), CodeFault>
    ensures { result ≡ four_bytes pc 2 bytes.now (λ a b c d. Insn.Iinc (u2 a b) (s2 c d) true) }
{
    match bytes {
        [a, b, c, d, ..] => {
            let index = u16::from_be_bytes([*a, *b]);
            let by = u16::from_be_bytes([*c, *d]).cast_signed();
            Ok((
                Insn::Iinc {
                    index,
                    by,
                    wide: true,
                },
                6,
            ))
        }
        _ => Err(CodeFault::Cut(pc)),
    }
}

// What stands behind `wide`.
fn wide(pc: u32, bytes: &[u8]) -> Result<(Insn, u32), CodeFault>
    ensures { result ≡ after_wide pc bytes.now }
{
    match bytes {
        [op, rest @ ..] => match form_of(*op) {
            Some(Form::Local) => wide_local(pc, *op, rest),
            Some(Form::Increment) => wide_increment(pc, rest),
            _ => Err(CodeFault::Wide(pc)),
        },
        _ => Err(CodeFault::Cut(pc)),
    }
}

// What stands behind an opcode of the form.
fn operands(
    code: &[u8],
    pc: u32,
    op: u8,
    form: Form,
    bytes: &[u8],
) -> Result<(Insn, u32), CodeFault>
    requires small { length code.now < 2 ^ 16 }
    requires within { pc < length code.now }
    ensures { result ≡ operands code.now pc op form bytes.now }
{
    match form {
        Form::Plain => Ok((Insn::Plain(op), 1)),
        Form::Byte => bipush(pc, bytes),
        Form::Short => sipush(pc, bytes),
        Form::Local => local(pc, op, bytes),
        Form::Increment => increment(pc, bytes),
        Form::NarrowPool => narrow_pool(pc, op, bytes),
        Form::Pool => pool(pc, op, bytes),
        Form::Interface => interface(pc, bytes),
        Form::ArrayCode => new_array(pc, bytes),
        Form::Dimensions => multi(pc, bytes),
        Form::Branch => branch(pc, op, bytes),
        Form::WideBranch => wide_branch(pc, op, bytes),
        Form::TableSwitch => table_switch(code, pc),
        Form::LookupSwitch => lookup_switch(code, pc),
        Form::Wide => wide(pc, bytes),
    }
}

// What stands at a place.
#[tactic(auto, unfolding(crate::specs::Decoding::decoded))]
fn decoded(code: &[u8], pc: u32) -> Result<(Insn, u32), CodeFault>
    requires { length code.now < 2 ^ 16 }
    ensures { result ≡ decoded code.now pc }
{
    let place = pc as usize;
    if place >= code.len() {
        return Err(CodeFault::Cut(pc));
    }
    match &code[place..] {
        [op, bytes @ ..] => match form_of(*op) {
            Some(form) => operands(code, pc, *op, form, bytes),
            None => Err(CodeFault::Opcode(pc, *op)),
        },
        _ => Err(CodeFault::Cut(pc)),
    }
}

/// What stands at a place in a method's code, and how many bytes it has (JVMS 6.4). The code is at most 65535 bytes
/// (JVMS 4.7.3), and the place is counted from its start.
///
/// A place at or past the end is `Cut`. At a switch a header that is there and is wrong comes first, then a table
/// that is cut, then keys that do not ascend. The bytes of padding may hold anything.
pub fn decode_at(code: &[u8], pc: u32) -> Result<(Insn, u32), CodeFault>
    requires { length code.now < 2 ^ 16 }
    ensures exact { result ≡ decoded code.now pc }
    ensures stands { IfOk result (λ found. Stands code.now pc found.0 found.1) }
{
    decoded(code, pc)
}
