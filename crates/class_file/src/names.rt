//! What the indices of a constant pool stand for (JVMS 4.4).

ghost use Rattle.std.specs.Prelude.{◌≡◌};
ghost use Rattle.std.specs.Option.{option_map, option_copied};
ghost use Rattle.class_file.specs.Pool as named;
ghost use Rattle.class_file.specs.Lookup.{type_seen, reference_seen};

use crate::pool::PoolEntry;
use crate::types::ClassFile;

/// A member's name and descriptor.
#[derive(Clone, Copy, Debug)]
pub struct NamedType<'a> {
    pub name: &'a [u8],
    pub descriptor: &'a [u8],
}

/// A member of a class or an interface, as code names it.
#[derive(Clone, Copy, Debug)]
pub struct Reference<'a> {
    pub class: &'a [u8],
    pub member: NamedType<'a>,
}

/// The entry of an index. Index 0 has none.
pub fn entry_at(pool: &[PoolEntry], index: u16) -> Option<&PoolEntry>
    ensures { option_copied result ≡ named.entry_at pool.now index }
{
    if index == 0 {
        None
    } else {
        pool.get(usize::from(index) - 1)
    }
}

/// The text at an index, in modified UTF-8 (JVMS 4.4.7), or `None` where the index stands for none.
pub fn text_at(pool: &[PoolEntry], index: u16) -> Option<&[u8]>
    ensures { option_copied result ≡ named.text_at pool.now index }
{
    match entry_at(pool, index) {
        Some(PoolEntry::Utf8(text)) => Some(text.as_slice()),
        _ => None,
    }
}

/// The name of the class or array type at an index (JVMS 4.4.1), or `None` where the index stands
/// for none.
pub fn class_at(pool: &[PoolEntry], index: u16) -> Option<&[u8]>
    ensures { option_copied result ≡ named.class_at pool.now index }
{
    match entry_at(pool, index) {
        Some(PoolEntry::Class(name)) => text_at(pool, *name),
        _ => None,
    }
}

/// The name of the class that a file declares (JVMS 4.1).
pub fn class_name(class: &ClassFile) -> Option<&[u8]>
    ensures { option_copied result ≡ named.this_name class.now }
{
    class_at(class.pool.as_slice(), class.this_class)
}

/// The text of the string constant at the index.
pub fn string_at(pool: &[PoolEntry], index: u16) -> Option<&[u8]>
    ensures { option_copied result ≡ named.string_at pool.now index }
{
    match entry_at(pool, index) {
        Some(PoolEntry::String(text)) => text_at(pool, *text),
        _ => None,
    }
}

/// The name and descriptor at the index.
pub fn named_type_at(pool: &[PoolEntry], index: u16) -> Option<NamedType<'_>>
    ensures { option_map type_seen result ≡ named.named_type_at pool.now index }
{
    match entry_at(pool, index) {
        Some(PoolEntry::NameAndType(name, descriptor)) => {
            let name = text_at(pool, *name)?;
            let descriptor = text_at(pool, *descriptor)?;
            Some(NamedType { name, descriptor })
        }
        _ => None,
    }
}

fn referred(pool: &[PoolEntry], class: u16, member: u16) -> Option<Reference<'_>>
    ensures { option_map reference_seen result ≡ named.referred pool.now class member }
{
    let class = class_at(pool, class)?;
    let member = named_type_at(pool, member)?;
    Some(Reference { class, member })
}

/// The field that the index names.
pub fn field_at(pool: &[PoolEntry], index: u16) -> Option<Reference<'_>>
    ensures { option_map reference_seen result ≡ named.field_at pool.now index }
{
    match entry_at(pool, index) {
        Some(PoolEntry::Fieldref(class, member)) => referred(pool, *class, *member),
        _ => None,
    }
}

/// The method of a class that the index names.
pub fn method_at(pool: &[PoolEntry], index: u16) -> Option<Reference<'_>>
    ensures { option_map reference_seen result ≡ named.method_at pool.now index }
{
    match entry_at(pool, index) {
        Some(PoolEntry::Methodref(class, member)) => referred(pool, *class, *member),
        _ => None,
    }
}
