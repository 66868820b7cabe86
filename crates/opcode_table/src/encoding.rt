//! The bytes of an instruction.

ghost use Rattle.std.specs.Prelude.{◌≡◌, ℕ, ◌<◌, ◌≤◌, List, ◌∷◌, ◌++◌, length};
ghost use Rattle.opcode_table.specs.Spelling.{over, spelling, local_bytes, increment_bytes, pool_bytes, branch_bytes, FitsLocal, FitsIncrement, FitsPool, FitsBranch, IsInsn, IsSingle};
ghost use Rattle.opcode_table.specs.Decoding.{decoded};
ghost use Rattle.opcode_table.specs.Table.{form_of};

use crate::form::Form;
use crate::insn::Insn;
use crate::table::form_of;

const BIPUSH: u8 = 16;

const SIPUSH: u8 = 17;

const IINC: u8 = 132;

const INVOKEINTERFACE: u8 = 185;

const NEWARRAY: u8 = 188;

const WIDE: u8 = 196;

const MULTIANEWARRAY: u8 = 197;

// Writes the bytes to the front of `out`, and says how many they are.
fn put(bytes: &[u8], out: &mut [u8]) -> u32
    requires few { length bytes.now ≤ 8 }
    requires room { length bytes.now ≤ length out.old }
    ensures written { out.new ≡ over bytes.now out.old }
    ensures size { result ≡ length bytes.now }
{
    out[..bytes.len()].copy_from_slice(bytes);
    bytes.len() as u32
}

fn put_local(op: u8, index: u16, wide: bool, out: &mut [u8]) -> u32
    requires fits { FitsLocal (form_of op) index wide }
    requires room { length (local_bytes op index wide) ≤ length out.old }
    ensures written { out.new ≡ over (local_bytes op index wide) out.old }
    ensures size { result ≡ length (local_bytes op index wide) }
{
    if wide {
        let [high, low] = index.to_be_bytes();
        put(&[WIDE, op, high, low], out)
    } else {
        put(&[op, index as u8], out)
    }
}

fn put_increment(index: u16, by: i16, wide: bool, out: &mut [u8]) -> u32
    requires fits { FitsIncrement index by wide }
    requires room { length (increment_bytes index by wide) ≤ length out.old }
    ensures written { out.new ≡ over (increment_bytes index by wide) out.old }
    ensures size { result ≡ length (increment_bytes index by wide) }
{
    if wide {
        let [high, low] = index.to_be_bytes();
        let [by_high, by_low] = by.cast_unsigned().to_be_bytes();
        put(&[WIDE, IINC, high, low, by_high, by_low], out)
    } else {
        put(&[IINC, index as u8, (by as i8).cast_unsigned()], out)
    }
}

fn put_pool(op: u8, index: u16, out: &mut [u8]) -> u32
    requires fits { FitsPool (form_of op) index }
    requires room { length (op ∷ pool_bytes (form_of op) index) ≤ length out.old }
    ensures written { out.new ≡ over (op ∷ pool_bytes (form_of op) index) out.old }
    ensures size { result ≡ length (op ∷ pool_bytes (form_of op) index) }
{
    match form_of(op) {
        Some(Form::NarrowPool) => put(&[op, index as u8], out),
        _ => {
            let [high, low] = index.to_be_bytes();
            put(&[op, high, low], out)
        }
    }
}

fn put_branch(op: u8, offset: i32, out: &mut [u8]) -> u32
    requires fits { FitsBranch (form_of op) offset }
    requires room { length (op ∷ branch_bytes (form_of op) offset) ≤ length out.old }
    ensures written { out.new ≡ over (op ∷ branch_bytes (form_of op) offset) out.old }
    ensures size { result ≡ length (op ∷ branch_bytes (form_of op) offset) }
{
    match form_of(op) {
        Some(Form::WideBranch) => {
            let [a, b, c, d] = offset.cast_unsigned().to_be_bytes();
            put(&[op, a, b, c, d], out)
        }
        _ => {
            let [high, low] = (offset as i16).cast_unsigned().to_be_bytes();
            put(&[op, high, low], out)
        }
    }
}

// Writes the bytes of an instruction, as `encode` does.
#[tactic(auto, unfolding(crate::specs::Spelling::spelling))]
fn put_insn(insn: &Insn, out: &mut [u8]) -> u32
    requires valid { IsInsn insn.now }
    requires single { IsSingle insn.now }
    requires room { length (spelling insn.now) ≤ length out.old }
    ensures written { out.new ≡ over (spelling insn.now) out.old }
    ensures size { result ≡ length (spelling insn.now) }
{
    match *insn {
        Insn::Plain(op) => put(&[op], out),
        Insn::Bipush(value) => put(&[BIPUSH, value.cast_unsigned()], out),
        Insn::Sipush(value) => {
            let [high, low] = value.cast_unsigned().to_be_bytes();
            put(&[SIPUSH, high, low], out)
        }
        Insn::Local { op, index, wide } => put_local(op, index, wide, out),
        Insn::Iinc { index, by, wide } => put_increment(index, by, wide, out),
        Insn::Pool { op, index } => put_pool(op, index, out),
        Insn::Interface { index, count, last } => {
            let [high, low] = index.to_be_bytes();
            put(&[INVOKEINTERFACE, high, low, count, last], out)
        }
        Insn::NewArray(code) => put(&[NEWARRAY, code], out),
        Insn::Multi { index, dims } => {
            let [high, low] = index.to_be_bytes();
            put(&[MULTIANEWARRAY, high, low, dims], out)
        }
        Insn::Branch { op, offset } => put_branch(op, offset, out),
        Insn::TableSwitch { .. } | Insn::LookupSwitch { .. } => unreachable!(),
    }
}

/// Writes the bytes of an instruction to the front of `out`, and says how many they are (JVMS 6.4). What stands behind
/// them in `out` stays.
///
/// The instruction is one that [`decode_at`](crate::decode_at) gives for some bytes, and no switch, and `out` has at
/// least its length.
pub fn encode(insn: &Insn, out: &mut [u8]) -> u32
    requires valid { IsInsn insn.now }
    requires single { IsSingle insn.now }
    requires room { length (spelling insn.now) ≤ length out.old }
    ensures written { out.new ≡ over (spelling insn.now) out.old }
    ensures size { result ≡ length (spelling insn.now) }
    // Behind any other bytes it is decoded again.
    ensures read_back { (front : List ℕ) → decoded (front ++ out.new) (length front) ≡ Ok (insn.now, result) }
{
    put_insn(insn, out)
}

/// How many bytes an instruction that is no switch has (JVMS 6.4).
#[tactic(auto, unfolding(crate::specs::Spelling::spelling))]
pub fn length_of(insn: &Insn) -> u32
    requires { IsSingle insn.now }
    ensures exact { result ≡ length (spelling insn.now) }
    ensures some { 0 < result }
    ensures few { result ≤ 6 }
{
    match *insn {
        Insn::Plain(_) => 1,
        Insn::Bipush(_) | Insn::NewArray(_) => 2,
        Insn::Sipush(_) => 3,
        Insn::Local { wide, .. } => { if wide { 4 } else { 2 } }
        Insn::Iinc { wide, .. } => { if wide { 6 } else { 3 } }
        Insn::Pool { op, .. } => match form_of(op) {
            Some(Form::NarrowPool) => 2,
            _ => 3,
        },
        Insn::Interface { .. } => 5,
        Insn::Multi { .. } => 4,
        Insn::Branch { op, .. } => match form_of(op) {
            Some(Form::WideBranch) => 5,
            _ => 3,
        },
        Insn::TableSwitch { .. } | Insn::LookupSwitch { .. } => unreachable!(),
    }
}
