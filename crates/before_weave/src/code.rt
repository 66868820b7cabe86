//! Putting the calls into a method's code.

ghost use Rattle.std.specs.Prelude.{◌≡◌, true, ◌<◌, ◌^◌, ◌++◌, ◌||◌, length, IfOk, IsOk, IsTrue, OnOk, Ok};
ghost use Rattle.opcode_table.specs.Decoding.{decoded};
ghost use Rattle.opcode_table.specs.Spelling.{spelling, Stands};
ghost use Rattle.before_weave.specs.Marks.{is_advised};
ghost use Rattle.before_weave.specs.Walk.{is_straight, marked_insn, IsMarkedCode};

use crate::marks::{INVOKESTATIC, is_advised};
use opcode_table::{Insn, decode_at};
use std::alloc::{AllocError, Global};

/// A method's code with calls put in.
#[derive(Drop)]
pub(crate) struct WovenCode {
    pub(crate) bytes: Vec<u8>,
    /// Whether there is any.
    pub(crate) advised: bool,
}

/// The instruction at a place where there is one, and its length.
fn insn_at(code: &[u8], pc: u32) -> (Insn, u32)
    requires small { length code.now < 2 ^ 16 }
    requires there { IsOk (decoded code.now pc) }
    ensures exact { decoded code.now pc ≡ Ok result }
    ensures stands { Stands code.now pc result.0 result.1 }
{
    match decode_at(code, pc) {
        Ok(found) => found,
        Err(_) => unreachable!(),
    }
}

/// Appends a call of the method at the index.
fn put_call(woven: &mut WovenCode, index: u16) -> Result<(), AllocError>
    ensures bytes { OnOk result (woven.new.bytes.items ≡ woven.old.bytes.items ++ spelling (Insn.Pool 184 index)) }
    ensures advised { OnOk result (woven.new.advised ≡ true) }
{
    woven.bytes.push(INVOKESTATIC)?;
    woven.bytes.extend_from_slice(&index.to_be_bytes())?;
    woven.advised = true;
    Ok(())
}

/// Appends an instruction, behind a call of the method at the index where it is advised.
fn put_insn(
    woven: &mut WovenCode,
    insn: Insn,
    bytes: &[u8],
    marks: &[bool],
    index: u16,
) -> Result<(), AllocError>
    requires { bytes.now ≡ spelling insn }
    ensures bytes { OnOk result (woven.new.bytes.items ≡ woven.old.bytes.items ++ marked_insn marks.now index insn) }
    ensures advised { OnOk result (woven.new.advised ≡ (woven.old.advised || is_advised marks.now insn)) }
{
    if is_advised(marks, insn) {
        put_call(woven, index)?;
    }
    woven.bytes.extend_from_slice(bytes)?;
    Ok(())
}

/// The code with a call of the method at the index before each advised call.
pub(crate) fn weave_code(
    alloc: Global,
    code: &[u8],
    marks: &[bool],
    index: u16,
) -> Result<WovenCode, AllocError>
    requires small { length code.now < 2 ^ 10 }
    requires straight { IsTrue (is_straight code.now) }
    ensures { IfOk result (λ w. IsMarkedCode marks.now index code.now w.bytes.items w.advised) }
{
    // Each instruction has a byte, and a call has three.
    let mut woven = WovenCode {
        bytes: Vec::with_capacity(alloc, 4 * code.len())?,
        advised: false,
    };
    let mut pc = 0;
    while (pc as usize) < code.len() {
        let (insn, size) = insn_at(code, pc);
        let next = pc + size;
        let bytes = &code[pc as usize..next as usize];
        put_insn(&mut woven, insn, bytes, marks, index)?;
        pc = next;
    }
    Ok(woven)
}
