//! Reading a constant pool (JVMS 4.4).

ghost use Rattle.std.specs.Prelude.{◌≡◌, ℕ, ◌<◌, ◌+◌, ◌^◌, length, IfOk};
ghost use Rattle.std.specs.Int.{w16};
ghost use Rattle.class_file.specs.Text.{is_utf8};
ghost use Rattle.class_file.specs.Sound.{is_wide};
ghost use Rattle.class_rules.specs.Forms.{Judges};
ghost use Rattle.class_format.specs.Gives.{GivesBy};
ghost use Rattle.class_format.specs.Readers.{sized, judged};
ghost use Rattle.class_format.specs.PoolReading.{tagged, first_entry, entry_of, entries, counted_entries, pool};
ghost use Rattle.class_format.specs.declared.fault.ClassFault.TheVariants.{Utf8};

use crate::fault::ClassFault;
use crate::numbers::{byte_at, two_at, u2_at, u4_at, u8_at};
use crate::scope::Scope;
use aj_names::ByteString;
use class_file::{PoolEntry, is_utf8};
use class_rules::{TextForms, pool_fault};
use sqlite_items::Items;
use std::alloc::Global;

/// A constant pool whose entries are sound, and what its texts may serve as.
#[derive(Drop)]
pub(crate) struct Pool {
    pub(crate) entries: Items<PoolEntry>,
    pub(crate) forms: TextForms,
    ghost judged: { Judges forms entries },
}

/// The text of the entry of an index.
fn text_at(
    alloc: Global,
    index: u16,
    scope: Scope,
    bytes: &[u8],
) -> Result<(ByteString, &[u8]), ClassFault>
    ensures { GivesBy (λ x. (x.0, x.1.now)) result (judged is_utf8 (λ text. Utf8 index) (sized w16) scope bytes.now) }
{
    let (count, rest) = u2_at(scope, bytes)?;
    let count = usize::from(count);
    if rest.len() < count {
        return Err(scope.cut);
    }
    let (front, rest) = rest.split_at(count);
    if !is_utf8(front) {
        return Err(ClassFault::Utf8(index));
    }
    Ok((ByteString::from_slice(alloc, front)?, rest))
}

#[tactic(auto, unfolding(crate::specs::PoolReading::tagged))]
fn number_entry(tag: u8, scope: Scope, bytes: &[u8]) -> Result<(PoolEntry, &[u8]), ClassFault>
    requires { (2 < tag) × (tag < 7) }
    ensures { (index : ℕ) → GivesBy (λ x. (x.0, x.1.now)) result (tagged index tag scope bytes.now) }
{
    match tag {
        3 => {
            let (bits, rest) = u4_at(scope, bytes)?;
            Ok((PoolEntry::Integer(bits.cast_signed()), rest))
        }
        4 => {
            let (bits, rest) = u4_at(scope, bytes)?;
            Ok((PoolEntry::Float(bits), rest))
        }
        5 => {
            let (bits, rest) = u8_at(scope, bytes)?;
            Ok((PoolEntry::Long(bits.cast_signed()), rest))
        }
        _ => {
            let (bits, rest) = u8_at(scope, bytes)?;
            Ok((PoolEntry::Double(bits), rest))
        }
    }
}

#[tactic(auto, unfolding(crate::specs::PoolReading::tagged))]
fn reference_entry(
    index: u16,
    tag: u8,
    scope: Scope,
    bytes: &[u8],
) -> Result<(PoolEntry, &[u8]), ClassFault>
    requires { 8 < tag }
    ensures { GivesBy (λ x. (x.0, x.1.now)) result (tagged index tag scope bytes.now) }
{
    if tag > 12 {
        return Err(ClassFault::PoolTag(index, tag));
    }
    let ((first, second), rest) = two_at(scope, bytes)?;
    let entry = match tag {
        9 => PoolEntry::Fieldref(first, second),
        10 => PoolEntry::Methodref(first, second),
        11 => PoolEntry::InterfaceMethodref(first, second),
        _ => PoolEntry::NameAndType(first, second),
    };
    Ok((entry, rest))
}

/// The entry of an index, behind its tag.
#[tactic(auto, unfolding(crate::specs::PoolReading::tagged))]
fn tagged_entry(
    alloc: Global,
    index: u16,
    tag: u8,
    scope: Scope,
    bytes: &[u8],
) -> Result<(PoolEntry, &[u8]), ClassFault>
    ensures { GivesBy (λ x. (x.0, x.1.now)) result (tagged index tag scope bytes.now) }
{
    match tag {
        1 => {
            let (text, rest) = text_at(alloc, index, scope, bytes)?;
            Ok((PoolEntry::Utf8(text), rest))
        }
        3..=6 => number_entry(tag, scope, bytes),
        7 => {
            let (name, rest) = u2_at(scope, bytes)?;
            Ok((PoolEntry::Class(name), rest))
        }
        8 => {
            let (text, rest) = u2_at(scope, bytes)?;
            Ok((PoolEntry::String(text), rest))
        }
        9..=12 => reference_entry(index, tag, scope, bytes),
        _ => Err(ClassFault::PoolTag(index, tag)),
    }
}

/// An entry that is no second of a Long or Double, of an index below the pool's count.
fn first_entry_at(
    alloc: Global,
    count: u16,
    index: u16,
    scope: Scope,
    bytes: &[u8],
) -> Result<(PoolEntry, &[u8]), ClassFault>
    requires { index < count }
    ensures { GivesBy (λ x. (x.0, x.1.now)) result (first_entry count index scope bytes.now) }
{
    let (tag, rest) = byte_at(scope, bytes)?;
    if (tag == 5 || tag == 6) && index + 1 == count {
        return Err(ClassFault::PoolTag(index, tag));
    }
    tagged_entry(alloc, index, tag, scope, rest)
}

#[tactic(auto, unfolding(crate::specs::PoolReading::entry_of))]
fn entry_at(
    alloc: Global,
    count: u16,
    index: u16,
    wide: bool,
    scope: Scope,
    bytes: &[u8],
) -> Result<(PoolEntry, &[u8]), ClassFault>
    requires { index < count }
    ensures { GivesBy (λ x. (x.0, x.1.now)) result (entry_of count (index, wide) scope bytes.now) }
{
    if wide {
        return Ok((PoolEntry::Second, bytes));
    }
    first_entry_at(alloc, count, index, scope, bytes)
}

fn is_wide(entry: &PoolEntry) -> bool
    ensures { result ≡ is_wide entry.now }
{
    matches!(entry, PoolEntry::Long(_) | PoolEntry::Double(_))
}

/// The entries of a pool, behind its count.
fn entries_of(
    alloc: Global,
    count: u16,
    scope: Scope,
    bytes: &[u8],
) -> Result<(Items<PoolEntry>, &[u8]), ClassFault>
    requires { 0 < count }
    ensures exact { GivesBy (λ x. (x.0, x.1.now)) result (entries count scope bytes.now) }
    ensures fits { IfOk result (λ x. length x.0 + 1 < 2 ^ 16) }
{
    let mut entries = Items::new(alloc);
    let mut rest = bytes;
    let mut wide = false;
    for index in 1..count {
        let (entry, after) = entry_at(alloc, count, index, wide, scope, rest)?;
        wide = is_wide(&entry);
        entries.push(entry)?;
        rest = after;
    }
    Ok((entries, rest))
}

#[tactic(auto, unfolding(crate::specs::PoolReading::entries))]
fn counted_entries_at(
    alloc: Global,
    scope: Scope,
    bytes: &[u8],
) -> Result<(Items<PoolEntry>, &[u8]), ClassFault>
    ensures exact { GivesBy (λ x. (x.0, x.1.now)) result (counted_entries scope bytes.now) }
    ensures fits { IfOk result (λ x. length x.0 + 1 < 2 ^ 16) }
{
    let (count, rest) = u2_at(scope, bytes)?;
    if count == 0 {
        return Err(ClassFault::PoolRef(0));
    }
    entries_of(alloc, count, scope, rest)
}

/// The pool, whose entries are judged once it is read.
#[tactic(auto, unfolding(crate::specs::PoolReading::pool))]
pub(crate) fn pool_at(
    alloc: Global,
    scope: Scope,
    bytes: &[u8],
) -> Result<(Pool, &[u8]), ClassFault>
    ensures { GivesBy (λ x. (x.0.entries, x.1.now)) result (pool scope bytes.now) }
{
    let (entries, rest) = counted_entries_at(alloc, scope, bytes)?;
    let forms = TextForms::judge(alloc, entries.as_slice())?;
    if let Some(index) = pool_fault(entries.as_slice(), &forms) {
        return Err(ClassFault::PoolRef(index));
    }
    Ok((Pool { entries, forms }, rest))
}
