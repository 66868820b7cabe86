//! Which entries of a pool name the method whose calls are advised.

ghost use Rattle.std.specs.Prelude.{◌≡◌, ◌&&◌, IfOk, option_copied};
ghost use Rattle.std.specs.Str.{bytes_eq};
ghost use Rattle.class_file.specs.Pool.{entry_at, text_at, class_at, named_type_at};
ghost use Rattle.class_file.specs.Sound.{is_some_that};
ghost use Rattle.jp_model.specs.JoinPoints.{no_parameters};
ghost use Rattle.before_weave.specs.Marks.{is_match, marks_of, is_marked, is_advised};

use class_file::PoolEntry;
use jp_model::FirstAspect;
use opcode_table::Insn;
use std::alloc::{AllocError, Global};

/// The descriptor of a method without parameters and result (JVMS 4.3.3).
const NO_PARAMETERS: &[u8] = b"()V";

/// The opcode of `invokestatic` (JVMS 6.4).
pub(crate) const INVOKESTATIC: u8 = 184;

/// The entry of an index (JVMS 4.1).
fn entry(pool: &[PoolEntry], index: u16) -> Option<&PoolEntry>
    ensures { option_copied result ≡ entry_at pool.now index }
{
    if index == 0 {
        return None;
    }
    sqlite_items::at(pool, index as usize - 1)
}

/// Whether the index is that of this text.
fn is_text(pool: &[PoolEntry], index: u16, text: &[u8]) -> bool
    ensures { result ≡ is_some_that (λ found. bytes_eq found text.now) (text_at pool.now index) }
{
    match entry(pool, index) {
        Some(PoolEntry::Utf8(found)) => found.as_slice() == text,
        _ => false,
    }
}

/// Whether the index is that of the class of this name.
fn is_class(pool: &[PoolEntry], index: u16, name: &[u8]) -> bool
    ensures { result ≡ is_some_that (λ found. bytes_eq found name.now) (class_at pool.now index) }
{
    match entry(pool, index) {
        Some(PoolEntry::Class(found)) => is_text(pool, *found, name),
        _ => false,
    }
}

/// Whether the index is that of this name with the descriptor of a method without parameters and
/// result.
fn is_named(pool: &[PoolEntry], index: u16, name: &[u8]) -> bool
    ensures { result ≡ is_some_that (λ found. bytes_eq found.name name.now && bytes_eq found.descriptor no_parameters) (named_type_at pool.now index) }
{
    match entry(pool, index) {
        Some(PoolEntry::NameAndType(found, descriptor)) => {
            is_text(pool, *found, name) && is_text(pool, *descriptor, NO_PARAMETERS)
        }
        _ => false,
    }
}

/// Whether an entry names the method whose calls are advised.
fn is_match(pool: &[PoolEntry], aspect: &FirstAspect, entry: &PoolEntry) -> bool
    ensures { result ≡ is_match pool.now aspect.now entry.now }
{
    match entry {
        PoolEntry::Methodref(class, member) => {
            is_class(pool, *class, aspect.class.as_slice())
                && is_named(pool, *member, aspect.method.as_slice())
        }
        _ => false,
    }
}

/// For each entry whether it names the method whose calls are advised.
pub(crate) fn marks_of(
    alloc: Global,
    pool: &[PoolEntry],
    aspect: &FirstAspect,
) -> Result<Vec<bool>, AllocError>
    ensures { IfOk result (λ marks. marks.items ≡ marks_of pool.now aspect.now) }
{
    let mut marks = Vec::with_capacity(alloc, pool.len())?;
    for entry in pool {
        marks.push(is_match(pool, aspect, entry))?;
    }
    Ok(marks)
}

/// Whether the entry of an index is marked.
fn is_marked(marks: &[bool], index: u16) -> bool
    ensures { result ≡ is_marked marks.now index }
{
    let place = index as usize;
    place > 0 && place <= marks.len() && marks[place - 1]
}

/// Whether an instruction is a call that is advised.
pub(crate) fn is_advised(marks: &[bool], insn: Insn) -> bool
    ensures { result ≡ is_advised marks.now insn }
{
    match insn {
        Insn::Pool { op, index } => op == INVOKESTATIC && is_marked(marks, index),
        _ => false,
    }
}
