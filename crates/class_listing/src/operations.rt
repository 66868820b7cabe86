//! Instructions, with what their operands name.

ghost use Rattle.std.specs.Prelude.{◌≡◌, ◌<◌, ◌^◌, length, pos, ◌+ℤ◌, IfOk};
ghost use Rattle.std.specs.Option.{option_map};
ghost use Rattle.opcode_table.specs.Decoding as decoding;
ghost use Rattle.opcode_table.specs.Spelling.{HasTable, HasPairs, HasSwitch};
ghost use Rattle.class_file.specs.Lookup.{reference_seen};
ghost use Rattle.class_file.specs.Pool as named;
ghost use Rattle.class_listing.specs.Steps as rule;

use crate::names::{class_shown, interface_method_at, label, shown, text_shown};
use aj_names::ByteString;
use class_file::{PoolEntry, Reference, entry_at, field_at, method_at, text_at};
use class_lines::{Case, Constant, Operation, is_class_constant};
use opcode_table::{
    Insn, pair_count, pair_key, pair_offset, switch_default, table_count, table_low, table_offset,
};
use sqlite_items::Items;
use std::alloc::{AllocError, Global};

const LDC: u8 = 18;

const LDC_W: u8 = 19;

const LDC2_W: u8 = 20;

const GETSTATIC: u8 = 178;

const PUTFIELD: u8 = 181;

const INVOKEVIRTUAL: u8 = 182;

const INVOKESTATIC: u8 = 184;

const INVOKEINTERFACE: u8 = 185;

/// A class without a name.
fn no_constant(alloc: Global) -> Result<Constant, AllocError>
    ensures { IfOk result (λ constant. constant ≡ rule.no_constant) }
{
    Ok(Constant::Class(shown(alloc, None)?))
}

/// The text at an index.
fn string_constant(alloc: Global, pool: &[PoolEntry], index: u16) -> Result<Constant, AllocError>
    ensures { IfOk result (λ constant. constant ≡ rule.string_constant (named.text_at pool.now index)) }
{
    match text_at(pool, index) {
        Some(text) => Ok(Constant::Text(ByteString::from_slice(alloc, text)?)),
        None => no_constant(alloc),
    }
}

/// A class, unless its name is written as another constant is.
fn class_constant(alloc: Global, name: ByteString) -> Result<Constant, AllocError>
    ensures { IfOk result (λ constant. constant ≡ rule.class_constant name) }
{
    if is_class_constant(name.as_slice()) {
        Ok(Constant::Class(name))
    } else {
        no_constant(alloc)
    }
}

/// What `ldc` and `ldc_w` push (JVMS 6.4).
fn constant(alloc: Global, pool: &[PoolEntry], index: u16) -> Result<Constant, AllocError>
    ensures { IfOk result (λ constant. constant ≡ rule.constant_of pool.now (named.entry_at pool.now index)) }
{
    match entry_at(pool, index) {
        Some(PoolEntry::Integer(n)) => Ok(Constant::Int(*n)),
        Some(PoolEntry::Float(bits)) => Ok(Constant::Float(*bits)),
        Some(PoolEntry::String(text)) => string_constant(alloc, pool, *text),
        Some(PoolEntry::Class(name)) => class_constant(alloc, text_shown(alloc, pool, *name)?),
        _ => no_constant(alloc),
    }
}

/// What `ldc2_w` pushes (JVMS 6.4).
fn wide_constant(alloc: Global, pool: &[PoolEntry], index: u16) -> Result<Operation, AllocError>
    ensures { IfOk result (λ operation. operation ≡ rule.wide_constant_of (named.entry_at pool.now index)) }
{
    match entry_at(pool, index) {
        Some(PoolEntry::Long(n)) => Ok(Operation::Long(*n)),
        Some(PoolEntry::Double(bits)) => Ok(Operation::Double(*bits)),
        _ => Ok(Operation::Constant {
            op: LDC2_W,
            constant: no_constant(alloc)?,
        }),
    }
}

/// An instruction that names a field or a method.
fn member(alloc: Global, op: u8, reference: Option<Reference<'_>>) -> Result<Operation, AllocError>
    ensures { IfOk result (λ operation. operation ≡ rule.member_of op (option_map reference_seen reference.entry)) }
{
    match reference {
        Some(reference) => Ok(Operation::Member {
            op,
            class: shown(alloc, Some(reference.class))?,
            name: shown(alloc, Some(reference.member.name))?,
            descriptor: shown(alloc, Some(reference.member.descriptor))?,
        }),
        None => Ok(Operation::Member {
            op,
            class: shown(alloc, None)?,
            name: shown(alloc, None)?,
            descriptor: shown(alloc, None)?,
        }),
    }
}

/// An instruction whose only operand is an index of the pool.
fn pool_operation(
    alloc: Global,
    pool: &[PoolEntry],
    op: u8,
    index: u16,
) -> Result<Operation, AllocError>
    ensures { IfOk result (λ operation. operation ≡ rule.pool_operation pool.now op index) }
{
    match op {
        LDC | LDC_W => Ok(Operation::Constant {
            op,
            constant: constant(alloc, pool, index)?,
        }),
        LDC2_W => wide_constant(alloc, pool, index),
        GETSTATIC..=PUTFIELD => member(alloc, op, field_at(pool, index)),
        INVOKEVIRTUAL..=INVOKESTATIC => member(alloc, op, method_at(pool, index)),
        _ => Ok(Operation::Class {
            op,
            class: class_shown(alloc, pool, index)?,
        }),
    }
}

/// The label of the place at a distance from the instruction at `pc`.
fn target(alloc: Global, pc: u32, offset: i32) -> Result<ByteString, AllocError>
    ensures { IfOk result (λ name. name ≡ rule.target pc offset) }
{
    label(alloc, i64::from(pc) + i64::from(offset))
}

#[tactic(auto, using(crate::proofs::Numbered::numbered_more))]
/// A `tableswitch`.
fn table(alloc: Global, code: &[u8], pc: u32, table: u32) -> Result<Operation, AllocError>
    requires small { length code.now < 2 ^ 16 }
    requires there { HasTable code.now table }
    ensures { IfOk result (λ operation. operation ≡ rule.table_operation code.now pc table) }
{
    let mut labels = Items::new(alloc);
    for i in 0..table_count(code, table) {
        labels.push(target(alloc, pc, table_offset(code, table, i))?)?;
    }
    Ok(Operation::TableSwitch {
        low: table_low(code, table),
        labels,
        default: target(alloc, pc, switch_default(code, table))?,
    })
}

/// Key `i` of a `lookupswitch`, and its label.
fn case_at(alloc: Global, code: &[u8], pc: u32, table: u32, i: u32) -> Result<Case, AllocError>
    requires there { HasPairs code.now table }
    requires within { i < decoding.pair_count code.now table }
    ensures { IfOk result (λ c. c ≡ rule.case_at code.now pc table i) }
{
    Ok(Case {
        key: pair_key(code, table, i),
        label: target(alloc, pc, pair_offset(code, table, i))?,
    })
}

#[tactic(auto, using(crate::proofs::Numbered::numbered_more))]
/// A `lookupswitch`.
fn lookup(alloc: Global, code: &[u8], pc: u32, table: u32) -> Result<Operation, AllocError>
    requires there { HasPairs code.now table }
    ensures { IfOk result (λ operation. operation ≡ rule.lookup_operation code.now pc table) }
{
    let mut cases = Items::new(alloc);
    for i in 0..pair_count(code, table) {
        cases.push(case_at(alloc, code, pc, table, i)?)?;
    }
    Ok(Operation::LookupSwitch {
        cases,
        default: target(alloc, pc, switch_default(code, table))?,
    })
}

/// The instruction at a place, with what its operands name.
pub(crate) fn operation(
    alloc: Global,
    pool: &[PoolEntry],
    code: &[u8],
    pc: u32,
    insn: Insn,
) -> Result<Operation, AllocError>
    requires small { length code.now < 2 ^ 16 }
    requires there { HasSwitch code.now insn }
    ensures { IfOk result (λ operation. operation ≡ rule.operation_of pool.now code.now pc insn) }
{
    match insn {
        Insn::Plain(op) => Ok(Operation::Plain(op)),
        Insn::Bipush(value) => Ok(Operation::Bipush(value)),
        Insn::Sipush(value) => Ok(Operation::Sipush(value)),
        Insn::Local { op, index, .. } => Ok(Operation::Local { op, index }),
        Insn::Iinc { index, by, .. } => Ok(Operation::Iinc { index, by }),
        Insn::Pool { op, index } => pool_operation(alloc, pool, op, index),
        Insn::Interface { index, .. } => {
            member(alloc, INVOKEINTERFACE, interface_method_at(pool, index))
        }
        Insn::NewArray(array) => Ok(Operation::NewArray(array)),
        Insn::Multi { index, dims } => Ok(Operation::Multi {
            class: class_shown(alloc, pool, index)?,
            dims,
        }),
        Insn::Branch { op, offset } => Ok(Operation::Branch {
            op,
            to: target(alloc, pc, offset)?,
        }),
        Insn::TableSwitch { table: start } => table(alloc, code, pc, start),
        Insn::LookupSwitch { table } => lookup(alloc, code, pc, table),
    }
}
