//! The constants of fields (JVMS 4.7.2).

ghost use Rattle.std.specs.Prelude.{◌≡◌, ◌<◌, ◌≤◌, ◌+◌, ◌*◌, ◌%◌, ◌∷◌, drop, length, IfOk};
ghost use Rattle.std.specs.List.{find, filter_map};
ghost use Rattle.std.specs.Option.{option_map, option_copied};
ghost use Rattle.class_machine.specs.ClassFiles as machine;
ghost use Rattle.class_machine.specs.Texts.{units_of};
ghost use Rattle.class_file.specs.Pool as named;
ghost use Rattle.machine_fields.specs.Constants.{constant_seen, named_type};

use class_file::{Attribute, ClassFile, Content, Member, PoolEntry, entry_at, text_at};
use std::alloc::{AllocError, Global};

/// What a field holds from the start.
#[derive(Clone, Copy)]
pub(crate) enum Constant<'a> {
    Int(i32),
    Long(i64),
    /// The bits of a float.
    Float(u32),
    /// The bits of a double.
    Double(u64),
    /// The String of the literal, by its text in modified UTF-8.
    Text(&'a [u8]),
}

fn constant_of<'a>(pool: &'a [PoolEntry], entry: &PoolEntry) -> Option<Constant<'a>>
    ensures { option_map constant_seen result ≡ machine.constant_held pool.now entry.now }
{
    match entry {
        PoolEntry::Integer(n) => Some(Constant::Int(*n)),
        PoolEntry::Float(bits) => Some(Constant::Float(*bits)),
        PoolEntry::Long(n) => Some(Constant::Long(*n)),
        PoolEntry::Double(bits) => Some(Constant::Double(*bits)),
        PoolEntry::String(text) => Some(Constant::Text(text_at(pool, *text)?)),
        _ => None,
    }
}

fn constant_in<'a>(pool: &'a [PoolEntry], attribute: &Attribute) -> Option<Constant<'a>>
    ensures { option_map constant_seen result ≡ machine.constant_in pool.now attribute.now }
{
    match &attribute.content {
        Content::ConstantValue(index) => constant_of(pool, entry_at(pool, *index)?),
        _ => None,
    }
}

fn first_constant<'a>(pool: &'a [PoolEntry], attributes: &[Attribute]) -> Option<Constant<'a>>
    ensures { option_map constant_seen result ≡ machine.first_of (filter_map (machine.constant_in pool.now) attributes.now) }
{
    for attribute in attributes {
        if let Some(constant) = constant_in(pool, attribute) {
            return Some(constant);
        }
    }
    None
}

// Whether the member has the name and the descriptor.
fn is_typed(pool: &[PoolEntry], member: &Member, name: &[u8], descriptor: &[u8]) -> bool
    ensures { result ≡ machine.is_typed (named_type name.now descriptor.now) (named.member_type pool.now member.now) }
{
    match (text_at(pool, member.name), text_at(pool, member.descriptor)) {
        (Some(own_name), Some(own_descriptor)) => {
            own_name == name && own_descriptor == descriptor
        }
        _ => false,
    }
}

fn field_named<'a>(file: &'a ClassFile, name: &[u8], descriptor: &[u8]) -> Option<&'a Member>
    ensures { option_copied result ≡ find (λ m. machine.is_typed (named_type name.now descriptor.now) (named.member_type file.now.pool m)) file.now.fields }
{
    for member in file.fields.as_slice() {
        if is_typed(file.pool.as_slice(), member, name, descriptor) {
            return Some(member);
        }
    }
    None
}

/// The ConstantValue of the file's first field of the name and descriptor.
pub(crate) fn constant_declared<'a>(
    file: &'a ClassFile,
    name: &[u8],
    descriptor: &[u8],
) -> Option<Constant<'a>>
    ensures { option_map constant_seen result ≡ machine.constant_declared (named_type name.now descriptor.now) file.now }
{
    let member = field_named(file, name, descriptor)?;
    first_constant(file.pool.as_slice(), member.attributes.as_slice())
}

// A unit of two bytes.
fn unit_of_two(a: u8, b: u8) -> u16
    ensures { result ≡ a % 32 * 64 + b % 64 }
{
    u16::from(a % 32) * 64 + u16::from(b % 64)
}

// A unit of three bytes.
fn unit_of_three(a: u8, b: u8, c: u8) -> u16
    ensures { result ≡ a % 16 * 4096 + b % 64 * 64 + c % 64 }
{
    u16::from(a % 16) * 4096 + u16::from(b % 64) * 64 + u16::from(c % 64)
}

// A unit, and how many bytes it takes.
#[derive(Clone, Copy)]
struct Unit {
    unit: u16,
    size: usize,
}

// The first unit of a text in modified UTF-8.
fn first_unit(bytes: &[u8]) -> Unit
    requires { 0 < length bytes.now }
    ensures unit { units_of bytes.now ≡ result.unit ∷ units_of (drop result.size bytes.now) }
    ensures some { 0 < result.size }
    ensures within { result.size ≤ length bytes.now }
{
    let a = bytes[0];
    if a < 128 || bytes.len() == 1 {
        return Unit {
            unit: u16::from(a),
            size: 1,
        };
    }
    let b = bytes[1];
    if a < 224 || bytes.len() == 2 {
        return Unit {
            unit: unit_of_two(a, b),
            size: 2,
        };
    }
    Unit {
        unit: unit_of_three(a, b, bytes[2]),
        size: 3,
    }
}

// The bytes from that one on.
fn behind(bytes: &[u8], size: usize) -> &[u8]
    requires { size ≤ length bytes.now }
    ensures { result.now ≡ drop size bytes.now }
{
    &bytes[size..]
}

/// The units of a text in modified UTF-8 (JVMS 4.4.7).
///
/// # Errors
/// Where there is no memory.
pub fn units_of(alloc: Global, bytes: &[u8]) -> Result<Vec<u16>, AllocError>
    ensures { IfOk result (λ units. units.items ≡ units_of bytes.now) }
{
    let mut units = Vec::new(alloc);
    let mut rest = bytes;
    'reading: while !rest.is_empty() {
        let first = first_unit(rest);
        units.push(first.unit)?;
        rest = behind(rest, first.size);
    }
    Ok(units)
}
