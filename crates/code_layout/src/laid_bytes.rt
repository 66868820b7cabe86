//! The bytes of rows that are laid out.

ghost use Rattle.std.specs.Prelude.{◌≡◌, ℕ, ◌<◌, ◌≤◌, ◌+◌, ◌-◌, ◌^◌, ◌∷◌, ◌++◌, true, false, length, map, get_or, pos, ◌-ℤ◌, FitsSigned, IfOk, OnOk};
ghost use Rattle.std.specs.Int.{w32};
ghost use Rattle.std.specs.List.{AllByRecursion};
ghost use Rattle.opcode_table.specs.Spelling.{spelling, s4_bytes, IsInsn, IsSingle};
ghost use Rattle.opcode_table.specs.declared.insn.Insn.TheVariants.{Branch};
ghost use Rattle.code_layout.specs.Blocks.{Count};
ghost use Rattle.code_layout.specs.Places.{AreWidened, end_of, is_short, is_test};
ghost use Rattle.code_layout.specs.Spelled.{AreRows, ArePlaces, bytes_of, padding, words, pairs_bytes, table_bytes, lookup_bytes, narrow_bytes, widened_bytes, widened_bytes_by, row_bytes, distance, way, place_in, IsShortInsn, CanStand};

use crate::branch::{GOTO, GOTO_W, JSR_W, is_test, opposite};
use crate::row::Row;
use opcode_table::{Insn, encode};
use std::alloc::{AllocError, Global};

const TABLESWITCH: u8 = 170;

const LOOKUPSWITCH: u8 = 171;

#[tactic(auto, using(crate::proofs::Putting::spelling_few))]
/// Adds the bytes of an instruction that is no switch.
fn put_insn(insn: &Insn, out: &mut Vec<u8>) -> Result<(), AllocError>
    requires valid { IsInsn insn.now }
    requires single { IsSingle insn.now }
    ensures { OnOk result (out.new.items ≡ out.old.items ++ spelling insn.now) }
{
    let mut bytes = [0; 8];
    let size = encode(insn, &mut bytes) as usize;
    out.extend_from_slice(&bytes[..size])
}

/// Adds a branch.
fn put_branch(op: u8, offset: i32, out: &mut Vec<u8>) -> Result<(), AllocError>
    requires { IsInsn (Branch op offset) }
    ensures { OnOk result (out.new.items ≡ out.old.items ++ spelling (Branch op offset)) }
{
    put_insn(&Insn::Branch { op, offset }, out)
}

/// Adds a branch that is widened.
fn put_widened(op: u8, offset: i32, out: &mut Vec<u8>) -> Result<(), AllocError>
    requires short { is_short op ≡ true }
    requires fits { FitsSigned w32 (offset -ℤ pos 3) }
    ensures { OnOk result (out.new.items ≡ out.old.items ++ widened_bytes_by (is_test op) op offset) }
{
    if is_test(op) {
        put_branch(opposite(op), 8, out)?;
        put_branch(GOTO_W, offset - 3, out)
    } else if op == GOTO {
        put_branch(GOTO_W, offset, out)
    } else {
        put_branch(JSR_W, offset, out)
    }
}

/// Adds a number of four bytes.
fn put_word(number: i32, out: &mut Vec<u8>) -> Result<(), AllocError>
    ensures { OnOk result (out.new.items ≡ out.old.items ++ s4_bytes number) }
{
    out.extend_from_slice(&number.cast_unsigned().to_be_bytes())
}

/// The way from a place to another.
fn distance(from: u64, to: u64) -> i32
    requires from { from < 2 ^ 16 }
    requires to { to < 2 ^ 16 }
    ensures { result ≡ pos to -ℤ pos from }
{
    to as i32 - from as i32
}

/// The way from a place to a row.
fn way(pc: u64, row: u32, places: &[u64]) -> i32
    requires from { pc < 2 ^ 16 }
    requires there { row < length places.now }
    requires small { (k : ℕ) → place_in places.now k < 2 ^ 16 }
    ensures { result ≡ way places.now pc row }
{
    distance(pc, places[row as usize])
}

/// Adds the opcode of a switch, and the padding up to the next multiple of four (JVMS 6.4).
fn put_head(op: u8, pc: u64, out: &mut Vec<u8>) -> Result<(), AllocError>
    ensures { OnOk result (out.new.items ≡ out.old.items ++ op ∷ padding pc) }
{
    out.push(op)?;
    for _i in 0..3 - pc % 4 {
        out.push(0)?;
    }
    Ok(())
}

/// Adds the ways to rows.
fn put_ways(pc: u64, to: &[u32], places: &[u64], out: &mut Vec<u8>) -> Result<(), AllocError>
    requires from { pc < 2 ^ 16 }
    requires some { 0 < length places.now }
    requires there { AllByRecursion (λ (t : ℕ). t ≤ length places.now - 1) to.now }
    requires small { (k : ℕ) → place_in places.now k < 2 ^ 16 }
    ensures { OnOk result (out.new.items ≡ out.old.items ++ words (map (way places.now pc) to.now)) }
{
    for row in to {
        put_word(way(pc, *row, places), out)?;
    }
    Ok(())
}

/// Adds the keys with the ways to their rows.
fn put_pairs(
    pc: u64,
    keys: &[i32],
    to: &[u32],
    places: &[u64],
    out: &mut Vec<u8>,
) -> Result<(), AllocError>
    requires each { length to.now ≡ length keys.now }
    requires from { pc < 2 ^ 16 }
    requires some { 0 < length places.now }
    requires there { AllByRecursion (λ (t : ℕ). t ≤ length places.now - 1) to.now }
    requires small { (k : ℕ) → place_in places.now k < 2 ^ 16 }
    ensures { OnOk result (out.new.items ≡ out.old.items ++ pairs_bytes keys.now (map (way places.now pc) to.now)) }
{
    for (i, row) in to.iter().enumerate() {
        put_word(keys[i], out)?;
        put_word(way(pc, *row, places), out)?;
    }
    Ok(())
}

/// Adds the table of a `tableswitch` behind its padding.
fn put_table(
    pc: u64,
    keys: &[i32],
    to: &[u32],
    places: &[u64],
    out: &mut Vec<u8>,
) -> Result<(), AllocError>
    requires keys { Count keys.now }
    requires each { length to.now ≡ length keys.now + 1 }
    requires from { pc < 2 ^ 16 }
    requires some { 0 < length places.now }
    requires there { AllByRecursion (λ (t : ℕ). t ≤ length places.now - 1) to.now }
    requires small { (k : ℕ) → place_in places.now k < 2 ^ 16 }
    ensures { OnOk result (out.new.items ≡ out.old.items ++ table_bytes keys.now (map (way places.now pc) to.now)) }
{
    put_word(way(pc, to[0], places), out)?;
    put_word(keys[0], out)?;
    put_word(keys[keys.len() - 1], out)?;
    put_ways(pc, &to[1..], places, out)
}

/// Adds the table of a `lookupswitch` behind its padding.
fn put_lookup(
    pc: u64,
    keys: &[i32],
    to: &[u32],
    places: &[u64],
    out: &mut Vec<u8>,
) -> Result<(), AllocError>
    requires few { length keys.now < 2 ^ 16 }
    requires each { length to.now ≡ length keys.now + 1 }
    requires from { pc < 2 ^ 16 }
    requires some { 0 < length places.now }
    requires there { AllByRecursion (λ (t : ℕ). t ≤ length places.now - 1) to.now }
    requires small { (k : ℕ) → place_in places.now k < 2 ^ 16 }
    ensures { OnOk result (out.new.items ≡ out.old.items ++ lookup_bytes keys.now (map (way places.now pc) to.now)) }
{
    put_word(way(pc, to[0], places), out)?;
    put_word(keys.len() as i32, out)?;
    put_pairs(pc, keys, &to[1..], places, out)
}

/// Adds an instruction that is no widened branch.
fn put_narrow(i: usize, row: &Row, places: &[u64], out: &mut Vec<u8>) -> Result<(), AllocError>
    requires { CanStand places.now i false row.now }
    ensures { OnOk result (out.new.items ≡ out.old.items ++ row_bytes (place_in places.now) i false row.now) }
{
    let pc = places[i];
    let keys = row.jump.keys.as_slice();
    let to = row.jump.to.as_slice();
    match row.insn {
        Insn::TableSwitch { .. } => {
            put_head(TABLESWITCH, pc, out)?;
            put_table(pc, keys, to, places, out)
        }
        Insn::LookupSwitch { .. } => {
            put_head(LOOKUPSWITCH, pc, out)?;
            put_lookup(pc, keys, to, places, out)
        }
        Insn::Branch { op, .. } => put_branch(op, way(pc, to[0], places), out),
        insn => put_insn(&insn, out),
    }
}

/// Adds an instruction that is a widened branch.
fn put_wide(i: usize, row: &Row, places: &[u64], out: &mut Vec<u8>) -> Result<(), AllocError>
    requires { CanStand places.now i true row.now }
    ensures { OnOk result (out.new.items ≡ out.old.items ++ row_bytes (place_in places.now) i true row.now) }
{
    match row.insn {
        Insn::Branch { op, .. } => {
            let offset = way(places[i], row.jump.to.as_slice()[0], places);
            put_widened(op, offset, out)
        }
        _ => unreachable!(),
    }
}

/// Adds a row.
fn put_row(
    i: usize,
    row: &Row,
    wide: bool,
    places: &[u64],
    out: &mut Vec<u8>,
) -> Result<(), AllocError>
    requires { CanStand places.now i wide row.now }
    ensures { OnOk result (out.new.items ≡ out.old.items ++ row_bytes (place_in places.now) i wide row.now) }
{
    if wide {
        put_wide(i, row, places, out)
    } else {
        put_narrow(i, row, places, out)
    }
}

/// The bytes of the rows at their places (JVMS 6.4).
pub(crate) fn laid_bytes(
    alloc: Global,
    rows: &[Row],
    wide: &[bool],
    places: &[u64],
) -> Result<Vec<u8>, AllocError>
    requires are { AreRows rows.now }
    requires widened { AreWidened rows.now wide.now }
    requires places { ArePlaces rows.now wide.now places.now }
    requires small { end_of rows.now wide.now < 2 ^ 16 }
    ensures { IfOk result (λ bytes. bytes.items ≡ bytes_of rows.now wide.now) }
{
    let mut out = Vec::new(alloc);
    for (i, row) in rows.iter().enumerate() {
        put_row(i, row, wide[i], places, &mut out)?;
    }
    Ok(out)
}
