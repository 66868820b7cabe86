//! The bytes of instructions.

ghost use Rattle.std.specs.Prelude.{◌≡◌, ◌≤◌, ◌++◌, ◌∷◌, [], OnOk, pos, ◌+ℤ◌, ◌-ℤ◌};
ghost use Rattle.std.specs.List.{flat_map};
ghost use Rattle.opcode_table.specs.Spelling.{u2_bytes, s2_bytes, s4_bytes, local_bytes, increment_bytes};
ghost use Rattle.opcode_table.specs.Table.{form_of};
ghost use Rattle.class_text.specs.Labels.{is_wide_form};
ghost use Rattle.class_text.specs.Bytes as rule;

use crate::labels::{distance, is_wide_branch, is_wide_increment, padding, place_of};
use crate::numbered::Numbered;
use crate::slots::argument_slots;
use aj_names::ByteString;
use class_lines::{Case, Operation};
use std::alloc::AllocError;

const BIPUSH: u8 = 16;

const SIPUSH: u8 = 17;

const LDC: u8 = 18;

const LDC2_W: u8 = 20;

const IINC: u8 = 132;

const TABLESWITCH: u8 = 170;

const LOOKUPSWITCH: u8 = 171;

const INVOKEINTERFACE: u8 = 185;

const NEWARRAY: u8 = 188;

const WIDE: u8 = 196;

const MULTIANEWARRAY: u8 = 197;

fn put_u2(out: &mut Vec<u8>, number: u16) -> Result<(), AllocError>
    ensures { OnOk result (out.new.items ≡ out.old.items ++ u2_bytes number) }
{
    out.extend_from_slice(&number.to_be_bytes())
}

fn put_s2(out: &mut Vec<u8>, number: i16) -> Result<(), AllocError>
    ensures { OnOk result (out.new.items ≡ out.old.items ++ s2_bytes number) }
{
    out.extend_from_slice(&number.cast_unsigned().to_be_bytes())
}

fn put_s4(out: &mut Vec<u8>, number: i32) -> Result<(), AllocError>
    ensures { OnOk result (out.new.items ≡ out.old.items ++ s4_bytes number) }
{
    out.extend_from_slice(&number.cast_unsigned().to_be_bytes())
}

/// An opcode and two bytes of an index.
fn put_indexed(out: &mut Vec<u8>, op: u8, index: u16) -> Result<(), AllocError>
    ensures { OnOk result (out.new.items ≡ out.old.items ++ (op ∷ u2_bytes index)) }
{
    out.push(op)?;
    put_u2(out, index)
}

/// A number of two bytes, or 0 where it does not fit.
fn fitting_short(number: i64) -> i16
    ensures { result ≡ rule.fitting 32767 number }
{
    if (-32_768..=32_767).contains(&number) {
        number as i16
    } else {
        0
    }
}

/// A number of four bytes, or 0 where it does not fit.
fn fitting_int(number: i128) -> i32
    ensures { result ≡ rule.fitting 2147483647 number }
{
    if (-0x8000_0000..=0x7fff_ffff).contains(&number) {
        number as i32
    } else {
        0
    }
}

/// The distance to a label, in four bytes.
fn put_place(
    out: &mut Vec<u8>,
    body: &[Numbered],
    pc: u32,
    name: &ByteString,
) -> Result<(), AllocError>
    ensures { OnOk result (out.new.items ≡ out.old.items ++ rule.place_bytes body.now pc name.now) }
{
    let distance = distance(pc, place_of(name.as_slice(), body));
    put_s4(out, fitting_int(i128::from(distance)))
}

fn put_branch(
    out: &mut Vec<u8>,
    body: &[Numbered],
    pc: u32,
    op: u8,
    to: &ByteString,
) -> Result<(), AllocError>
    ensures { OnOk result (out.new.items ≡ out.old.items ++ (op ∷ rule.branch_bytes body.now pc to.now (is_wide_form (form_of op)))) }
{
    out.push(op)?;
    if is_wide_branch(op) {
        put_place(out, body, pc, to)
    } else {
        let distance = distance(pc, place_of(to.as_slice(), body));
        put_s2(out, fitting_short(distance))
    }
}

fn put_local(out: &mut Vec<u8>, op: u8, index: u16) -> Result<(), AllocError>
    ensures { OnOk result (out.new.items ≡ out.old.items ++ rule.local_operation op index) }
{
    if index > 255 {
        out.push(WIDE)?;
        put_indexed(out, op, index)
    } else {
        out.push(op)?;
        out.push(index as u8)?;
        Ok(())
    }
}

fn put_increment(out: &mut Vec<u8>, index: u16, by: i16) -> Result<(), AllocError>
    ensures { OnOk result (out.new.items ≡ out.old.items ++ rule.increment_operation index by) }
{
    if is_wide_increment(index, by) {
        out.push(WIDE)?;
        put_indexed(out, IINC, index)?;
        put_s2(out, by)
    } else {
        out.push(IINC)?;
        out.push(index as u8)?;
        out.push((by as i8).cast_unsigned())?;
        Ok(())
    }
}

fn put_constant(out: &mut Vec<u8>, op: u8, index: u16) -> Result<(), AllocError>
    ensures { OnOk result (out.new.items ≡ out.old.items ++ rule.constant_bytes op index) }
{
    if op == LDC {
        out.push(op)?;
        out.push(index.min(255) as u8)?;
        Ok(())
    } else {
        put_indexed(out, op, index)
    }
}

/// An instruction that names a member. That of an interface's method has the slots of its arguments.
fn put_member(
    out: &mut Vec<u8>,
    op: u8,
    index: u16,
    descriptor: &ByteString,
) -> Result<(), AllocError>
    ensures { OnOk result (out.new.items ≡ out.old.items ++ rule.member_bytes op index descriptor.now) }
{
    put_indexed(out, op, index)?;
    if op == INVOKEINTERFACE {
        out.push(argument_slots(descriptor.as_slice()).min(255) as u8)?;
        out.push(0)?;
    }
    Ok(())
}

/// A switch's opcode, the padding behind it and the distance to the default label.
fn put_switch(
    out: &mut Vec<u8>,
    body: &[Numbered],
    pc: u32,
    op: u8,
    default: &ByteString,
) -> Result<(), AllocError>
    ensures { OnOk result (out.new.items ≡ out.old.items ++ rule.switch_bytes body.now pc op default.now) }
{
    out.push(op)?;
    let zeros = [0; 3];
    out.extend_from_slice(&zeros[..padding(pc) as usize])?;
    put_place(out, body, pc, default)
}

/// The distances to some labels.
fn put_places(
    out: &mut Vec<u8>,
    body: &[Numbered],
    pc: u32,
    labels: &[ByteString],
) -> Result<(), AllocError>
    ensures { OnOk result (out.new.items ≡ out.old.items ++ flat_map (rule.place_bytes body.now pc) labels.now) }
{
    for label in labels {
        put_place(out, body, pc, label)?;
    }
    Ok(())
}

/// The highest key of so many from the lowest on.
fn highest_key(low: i32, count: usize) -> i32
    ensures { result ≡ rule.fitting 2147483647 (low +ℤ pos count -ℤ pos 1) }
{
    fitting_int(i128::from(low) + count as i128 - 1)
}

fn put_keys(out: &mut Vec<u8>, low: i32, count: usize) -> Result<(), AllocError>
    ensures { OnOk result (out.new.items ≡ out.old.items ++ (s4_bytes low ++ s4_bytes (rule.fitting 2147483647 (low +ℤ pos count -ℤ pos 1)))) }
{
    put_s4(out, low)?;
    put_s4(out, highest_key(low, count))
}

/// The lowest and the highest key, and the distances.
#[tactic(auto, using(crate::proofs::Three::three), unfolding(crate::specs::Bytes::table_bytes))]
fn put_table(
    out: &mut Vec<u8>,
    body: &[Numbered],
    pc: u32,
    low: i32,
    labels: &[ByteString],
) -> Result<(), AllocError>
    ensures { OnOk result (out.new.items ≡ out.old.items ++ rule.table_bytes body.now pc low labels.now) }
{
    put_keys(out, low, labels.len())?;
    put_places(out, body, pc, labels)?;
    Ok(())
}

fn put_case(out: &mut Vec<u8>, body: &[Numbered], pc: u32, case: &Case) -> Result<(), AllocError>
    ensures { OnOk result (out.new.items ≡ out.old.items ++ rule.case_bytes body.now pc case.now) }
{
    put_s4(out, case.key)?;
    put_place(out, body, pc, &case.label)
}

fn put_all_cases(
    out: &mut Vec<u8>,
    body: &[Numbered],
    pc: u32,
    cases: &[Case],
) -> Result<(), AllocError>
    ensures { OnOk result (out.new.items ≡ out.old.items ++ flat_map (rule.case_bytes body.now pc) cases.now) }
{
    for case in cases {
        put_case(out, body, pc, case)?;
    }
    Ok(())
}

/// How many keys there are, and each with its distance.
fn put_cases(
    out: &mut Vec<u8>,
    body: &[Numbered],
    pc: u32,
    cases: &[Case],
) -> Result<(), AllocError>
    ensures { OnOk result (out.new.items ≡ out.old.items ++ rule.cases_bytes body.now pc cases.now) }
{
    put_s4(out, fitting_int(cases.len() as i128))?;
    put_all_cases(out, body, pc, cases)
}

/// Adds the bytes of an instruction at a place, with the index of what it names in the pool. The
/// lines of its method are given.
pub(crate) fn put_operation(
    out: &mut Vec<u8>,
    body: &[Numbered],
    pc: u32,
    index: u16,
    operation: &Operation,
) -> Result<(), AllocError>
    ensures { OnOk result (out.new.items ≡ out.old.items ++ rule.operation_bytes body.now pc index operation.now) }
{
    match operation {
        Operation::Plain(op) => {
            out.push(*op)?;
            Ok(())
        }
        Operation::Bipush(value) => {
            out.push(BIPUSH)?;
            out.push(value.cast_unsigned())?;
            Ok(())
        }
        Operation::Sipush(value) => {
            out.push(SIPUSH)?;
            put_s2(out, *value)
        }
        Operation::Local { op, index } => put_local(out, *op, *index),
        Operation::Iinc { index, by } => put_increment(out, *index, *by),
        Operation::Constant { op, .. } => put_constant(out, *op, index),
        Operation::Long(_) | Operation::Double(_) => put_indexed(out, LDC2_W, index),
        Operation::Member { op, descriptor, .. } => put_member(out, *op, index, descriptor),
        Operation::Class { op, .. } => put_indexed(out, *op, index),
        Operation::NewArray(code) => {
            out.push(NEWARRAY)?;
            out.push(*code)?;
            Ok(())
        }
        Operation::Multi { dims, .. } => {
            put_indexed(out, MULTIANEWARRAY, index)?;
            out.push(*dims)?;
            Ok(())
        }
        Operation::Branch { op, to } => put_branch(out, body, pc, *op, to),
        Operation::TableSwitch {
            low,
            labels,
            default,
        } => {
            put_switch(out, body, pc, TABLESWITCH, default)?;
            put_table(out, body, pc, *low, labels.as_slice())
        }
        Operation::LookupSwitch { cases, default } => {
            put_switch(out, body, pc, LOOKUPSWITCH, default)?;
            put_cases(out, body, pc, cases.as_slice())
        }
    }
}
