//! The semantic form of an instruction.

ghost use Rattle.std.specs.Prelude.{◌≡◌, ℕ, List, Some, option_and_then};
ghost use Rattle.std.specs.Option.{option_map};
ghost use Rattle.class_file.specs.Pool.{entry_at};
ghost use Rattle.class_machine.specs.ClassFiles as machine;
ghost use Rattle.class_machine.specs.Meanings.{meaning_of};
ghost use Rattle.class_machine.specs.Operations.{Do};
ghost use Rattle.machine_code.specs.Operations.{seen};

use crate::names::{interface_method_at, invoked};
use crate::operation::{KeyTable, Operation};
use class_file::{PoolEntry, class_at, entry_at, field_at, text_at};
use class_machine::kinds::{Constant, Element, Mode};
use class_machine::meaning::{Basic, Meaning};
use class_machine::table::meaning_of;
use opcode_table::Insn;

// What an opcode does, where its operand bytes say no more than targets.
fn basic_of(op: u8) -> Option<Basic>
    ensures { option_map Do result ≡ option_and_then machine.basic_of (meaning_of op) }
{
    match meaning_of(op) {
        Some(Meaning::Basic(basic)) => Some(basic),
        _ => None,
    }
}

// The same of an opcode with the index of a local.
fn local_of(op: u8, index: u16) -> Option<Basic>
    ensures { option_map Do result ≡ option_and_then (machine.local_of index) (meaning_of op) }
{
    match meaning_of(op) {
        Some(Meaning::Load(kind)) => Some(Basic::Load(kind, index)),
        Some(Meaning::Store(kind)) => Some(Basic::Store(kind, index)),
        Some(Meaning::Ret) => Some(Basic::Ret(index)),
        _ => None,
    }
}

// The primitive type of a code (JVMS 6, `newarray`).
fn element_of_code(code: u8) -> Option<Element>
    ensures { result ≡ machine.element_of_code code }
{
    match code {
        4 => Some(Element::Boolean),
        5 => Some(Element::Char),
        6 => Some(Element::Float),
        7 => Some(Element::Double),
        8 => Some(Element::Byte),
        9 => Some(Element::Short),
        10 => Some(Element::Int),
        11 => Some(Element::Long),
        _ => None,
    }
}

// What `ldc`, `ldc_w` and `ldc2_w` push.
fn constant_operation(pool: &[PoolEntry], index: u16) -> Option<Operation>
    ensures { (code : List ℕ) → option_map (seen pool.now code) result ≡ option_map Some (option_and_then (machine.constant_operation pool.now) (entry_at pool.now index)) }
{
    match entry_at(pool, index)? {
        PoolEntry::Integer(n) => Some(Operation::Do(Basic::Constant(Constant::Int(*n)))),
        PoolEntry::Float(bits) => Some(Operation::Do(Basic::Constant(Constant::Float(*bits)))),
        PoolEntry::Long(n) => Some(Operation::Do(Basic::Constant(Constant::Long(*n)))),
        PoolEntry::Double(bits) => Some(Operation::Do(Basic::Constant(Constant::Double(*bits)))),
        PoolEntry::String(text) => {
            text_at(pool, *text)?;
            Some(Operation::Refer(index))
        }
        PoolEntry::Class(name) => {
            text_at(pool, *name)?;
            Some(Operation::ReferClass(index))
        }
        _ => None,
    }
}

// The form of an instruction that names something in the pool.
fn pool_operation(pool: &[PoolEntry], op: u8, index: u16) -> Option<Operation>
    ensures { (code : List ℕ) → option_map (seen pool.now code) result ≡ option_map Some (option_and_then (machine.pool_of pool.now index) (meaning_of op)) }
{
    match meaning_of(op)? {
        Meaning::LoadConstant => constant_operation(pool, index),
        Meaning::Field(access) => {
            field_at(pool, index)?;
            Some(Operation::FieldAccess(access, index))
        }
        Meaning::Invoke(mode) => {
            invoked(pool, index, mode)?;
            Some(Operation::Invoke(mode, index))
        }
        Meaning::New => {
            class_at(pool, index)?;
            Some(Operation::New(index))
        }
        Meaning::NewReferenceArray => {
            class_at(pool, index)?;
            Some(Operation::NewReferenceArray(index))
        }
        Meaning::CheckCast => {
            class_at(pool, index)?;
            Some(Operation::CheckCast(index))
        }
        Meaning::InstanceOf => {
            class_at(pool, index)?;
            Some(Operation::InstanceOf(index))
        }
        _ => None,
    }
}

/// The semantic form of an instruction under a pool, or `None` where it has none or what it names isn't
/// there.
pub(crate) fn operation(pool: &[PoolEntry], insn: Insn) -> Option<Operation>
    ensures { (code : List ℕ) → option_map (seen pool.now code) result ≡ option_map Some (machine.operation pool.now code insn) }
{
    match insn {
        Insn::Plain(op) | Insn::Branch { op, .. } => Some(Operation::Do(basic_of(op)?)),
        Insn::Bipush(n) => Some(Operation::Do(Basic::Constant(Constant::Int(i32::from(n))))),
        Insn::Sipush(n) => Some(Operation::Do(Basic::Constant(Constant::Int(i32::from(n))))),
        Insn::Local { op, index, .. } => Some(Operation::Do(local_of(op, index)?)),
        Insn::Iinc { index, by, .. } => Some(Operation::Do(Basic::Increment(index, by))),
        Insn::Pool { op, index } => pool_operation(pool, op, index),
        Insn::Interface { index, .. } => {
            interface_method_at(pool, index)?;
            Some(Operation::Invoke(Mode::Interface, index))
        }
        Insn::NewArray(code) => Some(Operation::Do(Basic::NewArray(element_of_code(code)?))),
        Insn::Multi { index, dims } => {
            class_at(pool, index)?;
            Some(Operation::NewArrays(index, dims))
        }
        Insn::TableSwitch { table } => Some(Operation::Switch(KeyTable::Range(table))),
        Insn::LookupSwitch { table } => Some(Operation::Switch(KeyTable::Pairs(table))),
    }
}
