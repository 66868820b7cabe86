//! The first entry of a constant pool that is not sound.

ghost use Rattle.std.specs.Prelude.{◌≡◌, ◌+◌, ◌<◌, ◌^◌, List, length};
ghost use Rattle.class_file.specs.Pool as named;
ghost use Rattle.class_file.specs.declared.pool.PoolEntry.{PoolEntry};
ghost use Rattle.class_file.specs.Sound.{is_descriptor};
ghost use Rattle.class_file.specs.Code.{is_class_entry};
ghost use Rattle.class_rules.specs.FirstUnsound as test;
ghost use Rattle.class_file.specs.Sound.{is_some_that};
ghost use Rattle.class_rules.specs.Forms.{Judges};
ghost use Rattle.class_rules.specs.FirstUnsound.{first_unsound};

use crate::forms::TextForms;
use class_file::{PoolEntry, entry_at, is_utf8};

fn is_descriptor(forms: &TextForms, index: u16) -> bool
    ensures { (pool : List PoolEntry) → Judges forms.now pool → result ≡ is_some_that is_descriptor (named.text_at pool index) }
{
    forms.is_field_descriptor(index) || forms.is_method_descriptor(false, index)
}

// Whether the index is that of a class.
fn is_class(pool: &[PoolEntry], index: u16) -> bool
    ensures { result ≡ is_some_that is_class_entry (named.entry_at pool.now index) }
{
    matches!(entry_at(pool, index), Some(PoolEntry::Class(_)))
}

// Whether the index is that of a name and type whose descriptor is none of a method.
fn is_no_method_type(pool: &[PoolEntry], forms: &TextForms, index: u16) -> bool
    requires { Judges forms.now pool.now }
    ensures { result ≡ is_some_that (test.is_no_method_type pool.now) (named.entry_at pool.now index) }
{
    match entry_at(pool, index) {
        Some(PoolEntry::NameAndType(_, descriptor)) => {
            !forms.is_method_descriptor(false, *descriptor)
        }
        _ => false,
    }
}

// Whether the index is that of a name and type whose descriptor is none of a field.
fn is_no_field_type(pool: &[PoolEntry], forms: &TextForms, index: u16) -> bool
    requires { Judges forms.now pool.now }
    ensures { result ≡ is_some_that (test.is_no_field_type pool.now) (named.entry_at pool.now index) }
{
    match entry_at(pool, index) {
        Some(PoolEntry::NameAndType(_, descriptor)) => !forms.is_field_descriptor(*descriptor),
        _ => false,
    }
}

// Whether the entry's indices are those of entries of the right kind and form.
fn names_rightly(pool: &[PoolEntry], forms: &TextForms, entry: &PoolEntry) -> bool
    requires { Judges forms.now pool.now }
    ensures { result ≡ test.names_rightly pool.now entry.now }
{
    match entry {
        PoolEntry::Utf8(text) => is_utf8(text.as_slice()),
        PoolEntry::Class(name) => forms.is_internal_name(*name),
        PoolEntry::String(text) => forms.is_text(*text),
        PoolEntry::Fieldref(class, member) => {
            is_class(pool, *class) && is_no_method_type(pool, forms, *member)
        }
        PoolEntry::Methodref(class, member) => {
            is_class(pool, *class) && is_no_field_type(pool, forms, *member)
        }
        PoolEntry::InterfaceMethodref(class, member) => {
            is_class(pool, *class) && is_no_field_type(pool, forms, *member)
        }
        PoolEntry::NameAndType(name, descriptor) => {
            forms.is_member_name(*name) && is_descriptor(forms, *descriptor)
        }
        _ => true,
    }
}

/// The index of the first entry that names what is not there, or what is of the wrong kind or form
/// (JVMS 4.4). Beside its own text, each entry is judged in constant time, by the forms of the pool.
pub fn pool_fault(pool: &[PoolEntry], forms: &TextForms) -> Option<u16>
    requires judged { Judges forms.now pool.now }
    requires fits { length pool.now + 1 < 2 ^ 16 }
    ensures { result ≡ first_unsound pool.now }
{
    let mut index = 1;
    for entry in pool {
        if !names_rightly(pool, forms, entry) {
            return Some(index);
        }
        index += 1;
    }
    None
}
