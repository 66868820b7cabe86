//! The entries of the pool that a line needs.

ghost use Rattle.std.specs.Prelude.{◌≡◌, ◌≤◌, length};
ghost use Rattle.class_file.specs.declared.pool.PoolEntry.TheVariants as entry;
ghost use Rattle.constant_pool.specs.Edit.{with_entry};
ghost use Rattle.class_text.specs.Gives.{Leaves};
ghost use Rattle.class_text.specs.Pool as rule;

use crate::fault::TextFault;
use crate::slots::argument_slots;
use aj_names::{ByteString, FieldName, InternalName, MethodName};
use class_lines::{Constant, Operation};
use constant_pool::{PoolEdit, PoolFault};
use std::alloc::Global;

/// The longest text of a class file, in bytes (JVMS 4.4.7).
const LONGEST_TEXT: usize = 65_535;

const LDC: u8 = 18;

/// `putfield`, the last that names a field.
const PUTFIELD: u8 = 181;

const INVOKEINTERFACE: u8 = 185;

/// The most slots that the arguments of a call of an interface's method take (JVMS 4.10).
const MOST_SLOTS: u128 = 255;

/// The first version whose constants may be classes.
const WITH_CLASS_CONSTANTS: u16 = 49;

/// The fault of a line whose entries the pool has no room for.
fn refusal(line: usize, fault: PoolFault) -> TextFault
    ensures { result ≡ rule.refusal line fault }
{
    match fault {
        PoolFault::PoolFull => TextFault::Line(line),
        PoolFault::Memory => TextFault::Memory,
    }
}

/// The index of a text.
pub(crate) fn text_index(pool: &mut PoolEdit, line: usize, text: &[u8]) -> Result<u16, TextFault>
    ensures { Leaves pool.new result (rule.text_made line text.now pool.old) }
{
    if text.len() > LONGEST_TEXT {
        return Err(TextFault::Line(line));
    }
    match pool.utf8(text) {
        Ok(index) => Ok(index),
        Err(fault) => Err(refusal(line, fault)),
    }
}

/// The index of a class or array type.
pub(crate) fn class_index(
    alloc: Global,
    pool: &mut PoolEdit,
    line: usize,
    name: &ByteString,
) -> Result<u16, TextFault>
    ensures { Leaves pool.new result (rule.class_made line name.now pool.old) }
{
    if name.len() > LONGEST_TEXT {
        return Err(TextFault::Line(line));
    }
    let name = InternalName::from_slice(alloc, name.as_slice())?;
    match pool.class(&name) {
        Ok(index) => Ok(index),
        Err(fault) => Err(refusal(line, fault)),
    }
}

/// The index of a string constant.
fn string_index(pool: &mut PoolEdit, line: usize, text: &[u8]) -> Result<u16, TextFault>
    ensures { Leaves pool.new result (rule.string_made line text.now pool.old) }
{
    if text.len() > LONGEST_TEXT {
        return Err(TextFault::Line(line));
    }
    match pool.string_text(text) {
        Ok(index) => Ok(index),
        Err(fault) => Err(refusal(line, fault)),
    }
}

fn are_short(class: &ByteString, name: &ByteString, descriptor: &ByteString) -> bool
    ensures { result ≡ rule.are_short class.now name.now descriptor.now }
{
    class.len() <= LONGEST_TEXT && name.len() <= LONGEST_TEXT && descriptor.len() <= LONGEST_TEXT
}

/// Whether the slots of a call are counted in a byte where they must be.
fn takes_few(op: u8, descriptor: &ByteString) -> bool
    ensures { result ≡ rule.takes_few op descriptor.now }
{
    op < INVOKEINTERFACE || argument_slots(descriptor.as_slice()) <= MOST_SLOTS
}

fn field_index(
    alloc: Global,
    pool: &mut PoolEdit,
    line: usize,
    class: &ByteString,
    name: &ByteString,
    descriptor: &ByteString,
) -> Result<u16, TextFault>
    requires class { length class.now ≤ 65535 }
    requires name { length name.now ≤ 65535 }
    requires descriptor { length descriptor.now ≤ 65535 }
    ensures { Leaves pool.new result (rule.field_made line class.now name.now descriptor.now pool.old) }
{
    let field = FieldName {
        class: InternalName::from_slice(alloc, class.as_slice())?,
        name: name.copy()?,
        descriptor: descriptor.copy()?,
    };
    match pool.field_ref(&field) {
        Ok(index) => Ok(index),
        Err(fault) => Err(refusal(line, fault)),
    }
}

fn method_index(
    alloc: Global,
    pool: &mut PoolEdit,
    line: usize,
    class: &ByteString,
    name: &ByteString,
    descriptor: &ByteString,
    interface: bool,
) -> Result<u16, TextFault>
    requires class { length class.now ≤ 65535 }
    requires name { length name.now ≤ 65535 }
    requires descriptor { length descriptor.now ≤ 65535 }
    ensures { Leaves pool.new result (rule.method_made line class.now name.now descriptor.now interface pool.old) }
{
    let method = MethodName {
        class: InternalName::from_slice(alloc, class.as_slice())?,
        name: name.copy()?,
        descriptor: descriptor.copy()?,
        interface,
    };
    match pool.method_ref(&method) {
        Ok(index) => Ok(index),
        Err(fault) => Err(refusal(line, fault)),
    }
}

/// The index of the member that an instruction names.
fn member_index(
    alloc: Global,
    pool: &mut PoolEdit,
    line: usize,
    op: u8,
    class: &ByteString,
    name: &ByteString,
    descriptor: &ByteString,
) -> Result<u16, TextFault>
    ensures { Leaves pool.new result (rule.member_made line op class.now name.now descriptor.now pool.old) }
{
    if !are_short(class, name, descriptor) || !takes_few(op, descriptor) {
        return Err(TextFault::Line(line));
    }
    if op <= PUTFIELD {
        field_index(alloc, pool, line, class, name, descriptor)
    } else {
        let interface = op == INVOKEINTERFACE;
        method_index(alloc, pool, line, class, name, descriptor, interface)
    }
}

fn int_index(pool: &mut PoolEdit, line: usize, number: i32) -> Result<u16, TextFault>
    ensures { Leaves pool.new result (rule.within_pool line (with_entry pool.old (entry.Integer number))) }
{
    match pool.int(number) {
        Ok(index) => Ok(index),
        Err(fault) => Err(refusal(line, fault)),
    }
}

fn float_index(pool: &mut PoolEdit, line: usize, bits: u32) -> Result<u16, TextFault>
    ensures { Leaves pool.new result (rule.within_pool line (with_entry pool.old (entry.Float bits))) }
{
    match pool.float(bits) {
        Ok(index) => Ok(index),
        Err(fault) => Err(refusal(line, fault)),
    }
}

fn long_index(pool: &mut PoolEdit, line: usize, number: i64) -> Result<u16, TextFault>
    ensures { Leaves pool.new result (rule.within_pool line (with_entry pool.old (entry.Long number))) }
{
    match pool.long(number) {
        Ok(index) => Ok(index),
        Err(fault) => Err(refusal(line, fault)),
    }
}

fn double_index(pool: &mut PoolEdit, line: usize, bits: u64) -> Result<u16, TextFault>
    ensures { Leaves pool.new result (rule.within_pool line (with_entry pool.old (entry.Double bits))) }
{
    match pool.double(bits) {
        Ok(index) => Ok(index),
        Err(fault) => Err(refusal(line, fault)),
    }
}

/// The index of a constant. A class is one from version 49 on.
fn constant_index(
    alloc: Global,
    pool: &mut PoolEdit,
    version: u16,
    line: usize,
    constant: &Constant,
) -> Result<u16, TextFault>
    ensures { Leaves pool.new result (rule.constant_made version line constant.now pool.old) }
{
    match constant {
        Constant::Int(number) => int_index(pool, line, *number),
        Constant::Float(bits) => float_index(pool, line, *bits),
        Constant::Text(text) => string_index(pool, line, text.as_slice()),
        Constant::Class(_) if version < WITH_CLASS_CONSTANTS => Err(TextFault::Line(line)),
        Constant::Class(class) => class_index(alloc, pool, line, class),
    }
}

/// The index of the constant of `ldc`, which has one byte, or `ldc_w`.
fn pushed_index(
    alloc: Global,
    pool: &mut PoolEdit,
    version: u16,
    line: usize,
    op: u8,
    constant: &Constant,
) -> Result<u16, TextFault>
    ensures { Leaves pool.new result (rule.pushed_made version line op constant.now pool.old) }
{
    let index = constant_index(alloc, pool, version, line, constant)?;
    if op == LDC && index > 255 {
        return Err(TextFault::Line(line));
    }
    Ok(index)
}

/// The index that an instruction names, or 0 where it names none.
pub(crate) fn index_of(
    alloc: Global,
    pool: &mut PoolEdit,
    version: u16,
    line: usize,
    operation: &Operation,
) -> Result<u16, TextFault>
    ensures { Leaves pool.new result (rule.index_made version line operation.now pool.old) }
{
    match operation {
        Operation::Constant { op, constant } => {
            pushed_index(alloc, pool, version, line, *op, constant)
        }
        Operation::Long(number) => long_index(pool, line, *number),
        Operation::Double(bits) => double_index(pool, line, *bits),
        Operation::Member {
            op,
            class,
            name,
            descriptor,
        } => member_index(alloc, pool, line, *op, class, name, descriptor),
        Operation::Class { class, .. } | Operation::Multi { class, .. } => {
            class_index(alloc, pool, line, class)
        }
        _ => Ok(0),
    }
}
