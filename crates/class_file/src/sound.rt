//! Soundness of a constant pool (JVMS 4.4).

ghost use Rattle.std.specs.Prelude.{◌≡◌, ◌<◌, is_some};
ghost use Rattle.std.specs.List.{list_all};
ghost use Rattle.class_file.specs.Pool as named;
ghost use Rattle.class_file.specs.Text as form;
ghost use Rattle.class_file.specs.Sound as test;
ghost use Rattle.class_file.specs.Sound.{is_some_that};

use crate::names::{class_at, named_type_at, text_at};
use crate::pool::PoolEntry;
use crate::text::{
    is_field_descriptor, is_internal_name, is_member_name, is_method_descriptor, is_utf8,
};

fn is_descriptor(text: &[u8]) -> bool
    ensures { result ≡ test.is_descriptor text.now }
{
    is_field_descriptor(text) || is_method_descriptor(text)
}

fn names_class(pool: &[PoolEntry], index: u16) -> bool
    ensures { result ≡ is_some_that form.is_internal_name (named.text_at pool.now index) }
{
    match text_at(pool, index) {
        Some(text) => is_internal_name(text),
        None => false,
    }
}

fn names_member(pool: &[PoolEntry], index: u16) -> bool
    ensures { result ≡ is_some_that form.is_member_name (named.text_at pool.now index) }
{
    match text_at(pool, index) {
        Some(text) => is_member_name(text),
        None => false,
    }
}

fn has_descriptor(pool: &[PoolEntry], index: u16) -> bool
    ensures { result ≡ is_some_that test.is_descriptor (named.text_at pool.now index) }
{
    match text_at(pool, index) {
        Some(text) => is_descriptor(text),
        None => false,
    }
}

fn is_field(pool: &[PoolEntry], index: u16) -> bool
    ensures { result ≡ is_some_that test.of_field (named.named_type_at pool.now index) }
{
    match named_type_at(pool, index) {
        Some(member) => is_field_descriptor(member.descriptor),
        None => false,
    }
}

fn is_method(pool: &[PoolEntry], index: u16) -> bool
    ensures { result ≡ is_some_that test.of_method (named.named_type_at pool.now index) }
{
    match named_type_at(pool, index) {
        Some(member) => is_method_descriptor(member.descriptor),
        None => false,
    }
}

/// Whether what the entry names in the pool is there, and of the right kind and form.
pub fn entry_is_sound(pool: &[PoolEntry], entry: &PoolEntry) -> bool
    ensures { result ≡ test.entry_is_sound pool.now entry.now }
{
    match entry {
        PoolEntry::Utf8(text) => is_utf8(text.as_slice()),
        PoolEntry::Class(name) => names_class(pool, *name),
        PoolEntry::String(text) => text_at(pool, *text).is_some(),
        PoolEntry::Fieldref(class, member) => {
            class_at(pool, *class).is_some() && is_field(pool, *member)
        }
        PoolEntry::Methodref(class, member) => {
            class_at(pool, *class).is_some() && is_method(pool, *member)
        }
        PoolEntry::InterfaceMethodref(class, member) => {
            class_at(pool, *class).is_some() && is_method(pool, *member)
        }
        PoolEntry::NameAndType(name, descriptor) => {
            names_member(pool, *name) && has_descriptor(pool, *descriptor)
        }
        _ => true,
    }
}

/// Whether what each entry names is there, and of the right kind and form.
pub fn entries_are_sound(pool: &[PoolEntry]) -> bool
    ensures { result ≡ list_all (test.entry_is_sound pool.now) pool.now }
{
    pool.iter().all(|entry| entry_is_sound(pool, entry))
}
