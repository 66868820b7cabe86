//! The words that stand in a listing for what the indices of a pool name, and for places in code.

ghost use Rattle.std.specs.Prelude.{◌≡◌, map, IfOk};
ghost use Rattle.std.specs.Option.{option_map, option_copied};
ghost use Rattle.class_file.specs.Lookup.{reference_seen};
ghost use Rattle.class_file.specs.Pool as named;
ghost use Rattle.class_listing.specs.Names as rule;

use aj_names::ByteString;
use class_file::{PoolEntry, Reference, class_at, entry_at, named_type_at, text_at};
use class_lines::is_blank;
use itoa::Buffer;
use std::alloc::{AllocError, Global};

/// A byte of a word, which a blank or a line feed would end.
fn visible(byte: u8) -> u8
    ensures { result ≡ rule.visible byte }
{
    if is_blank(byte) { b'.' } else { byte }
}

/// The bytes of a word.
fn visible_bytes(alloc: Global, bytes: &[u8]) -> Result<Vec<u8>, AllocError>
    ensures { IfOk result (λ word. word.items ≡ map rule.visible bytes.now) }
{
    bytes.iter().map(|byte| visible(*byte)).collect(alloc)
}

#[tactic(auto, using(crate::proofs::Lists::shown_some))]
/// A name as a word, or `.` where there is none.
pub(crate) fn shown(alloc: Global, name: Option<&[u8]>) -> Result<ByteString, AllocError>
    ensures { IfOk result (λ word. word ≡ rule.shown (option_copied name.entry)) }
{
    match name {
        None | Some([]) => ByteString::from_slice(alloc, b"."),
        Some(bytes) => Ok(ByteString::from_vec(visible_bytes(alloc, bytes)?)),
    }
}

/// The text at an index.
pub(crate) fn text_shown(
    alloc: Global,
    pool: &[PoolEntry],
    index: u16,
) -> Result<ByteString, AllocError>
    ensures { IfOk result (λ word. word ≡ rule.text_shown pool.now index) }
{
    shown(alloc, text_at(pool, index))
}

/// The name of the class at an index.
pub(crate) fn class_shown(
    alloc: Global,
    pool: &[PoolEntry],
    index: u16,
) -> Result<ByteString, AllocError>
    ensures { IfOk result (λ word. word ≡ rule.class_shown pool.now index) }
{
    shown(alloc, class_at(pool, index))
}

/// A class that is caught, unless its name is `any`.
fn caught_name(alloc: Global, name: ByteString) -> Result<ByteString, AllocError>
    ensures { IfOk result (λ word. word ≡ rule.caught_name name) }
{
    if name.as_slice() == b"any".as_slice() {
        shown(alloc, None)
    } else {
        Ok(name)
    }
}

/// The name of the class that is caught, or nothing for any.
pub(crate) fn caught(
    alloc: Global,
    pool: &[PoolEntry],
    index: u16,
) -> Result<Option<ByteString>, AllocError>
    ensures { IfOk result (λ class. class ≡ rule.caught pool.now index) }
{
    if index == 0 {
        Ok(None)
    } else {
        let name = class_shown(alloc, pool, index)?;
        Ok(Some(caught_name(alloc, name)?))
    }
}

fn referred(pool: &[PoolEntry], class: u16, member: u16) -> Option<Reference<'_>>
    ensures { option_map reference_seen result ≡ named.referred pool.now class member }
{
    let class = class_at(pool, class)?;
    let member = named_type_at(pool, member)?;
    Some(Reference { class, member })
}

/// The method of an interface that the index names.
pub(crate) fn interface_method_at(pool: &[PoolEntry], index: u16) -> Option<Reference<'_>>
    ensures { option_map reference_seen result ≡ rule.interface_method_at pool.now index }
{
    match entry_at(pool, index) {
        Some(PoolEntry::InterfaceMethodref(class, member)) => referred(pool, *class, *member),
        _ => None,
    }
}

/// The label of a place in the code.
pub(crate) fn label(alloc: Global, place: i64) -> Result<ByteString, AllocError>
    ensures { IfOk result (λ name. name ≡ rule.label place) }
{
    let mut buffer = Buffer::new();
    let mut name = Vec::from_slice(alloc, b"L")?;
    name.extend_from_slice(buffer.format(place).as_bytes())?;
    Ok(ByteString::from_vec(name))
}
