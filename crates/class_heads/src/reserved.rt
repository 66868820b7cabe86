//! Whether a class takes names that are kept for what is woven.

ghost use Rattle.std.specs.Prelude.{◌≡◌, map, IfOk};
ghost use Rattle.std.specs.List.{list_any};
ghost use Rattle.std.specs.Option.{option_copied};
ghost use Rattle.class_heads.specs.Reserved as rule;
ghost use Rattle.class_heads.specs.Marked as by;

use class_file::{ClassFile, Member, PoolEntry};
use sqlite_items::{Items, at};
use std::alloc::{AllocError, Global};

// Whether `ajc$` stands in the text.
fn has_mark(text: &[u8]) -> bool
    ensures { result ≡ rule.has_mark text.now }
{
    for i in 0..text.len() {
        if text[i..].starts_with(b"ajc$") {
            return true;
        }
    }
    false
}

fn entry_mark(entry: &PoolEntry) -> bool
    ensures { result ≡ by.entry_mark entry.now }
{
    match entry {
        PoolEntry::Utf8(text) => has_mark(text.as_slice()),
        _ => false,
    }
}

// Which entries of a pool are texts with `ajc$` in them. Each text is looked through once, however
// many entries name it.
fn marks_of(alloc: Global, pool: &[PoolEntry]) -> Result<Items<bool>, AllocError>
    ensures { IfOk result (λ marks. marks ≡ map by.entry_mark pool.now) }
{
    let mut marks = Items::new(alloc);
    for entry in pool {
        marks.push(entry_mark(entry))?;
    }
    Ok(marks)
}

// The mark of the entry of an index. Index 0 has none.
fn mark_at(marks: &[bool], index: u16) -> Option<&bool>
    ensures { option_copied result ≡ by.mark_at marks.now index }
{
    if index == 0 {
        None
    } else {
        at(marks, usize::from(index) - 1)
    }
}

fn is_marked(marks: &[bool], index: u16) -> bool
    ensures { result ≡ by.is_marked marks.now index }
{
    match mark_at(marks, index) {
        Some(mark) => *mark,
        None => false,
    }
}

fn entry_is_marked(marks: &[bool], entry: &PoolEntry) -> bool
    ensures { result ≡ by.entry_is_marked marks.now entry.now }
{
    match entry {
        PoolEntry::Class(name) => is_marked(marks, *name),
        PoolEntry::NameAndType(name, descriptor) => {
            is_marked(marks, *name) || is_marked(marks, *descriptor)
        }
        _ => false,
    }
}

fn any_entry(marks: &[bool], entries: &[PoolEntry]) -> bool
    ensures { result ≡ list_any (by.entry_is_marked marks.now) entries.now }
{
    entries.iter().any(|entry| entry_is_marked(marks, entry))
}

fn member_is_marked(marks: &[bool], member: &Member) -> bool
    ensures { result ≡ by.member_is_marked marks.now member.now }
{
    is_marked(marks, member.name) || is_marked(marks, member.descriptor)
}

fn any_member(marks: &[bool], members: &[Member]) -> bool
    ensures { result ≡ list_any (by.member_is_marked marks.now) members.now }
{
    members.iter().any(|member| member_is_marked(marks, member))
}

fn is_reserved_by(marks: &[bool], class: &ClassFile) -> bool
    ensures { result ≡ by.is_reserved marks.now class.now }
{
    any_entry(marks, class.pool.as_slice())
        || (any_member(marks, class.fields.as_slice())
            || any_member(marks, class.methods.as_slice()))
}

/// Whether `ajc$`, which is kept for what is woven, stands in a name that the class declares or refers
/// to: the name of a class (JVMS 4.4.1), or the name or descriptor of a member (JVMS 4.4.6, 4.5,
/// 4.6). String constants and the names of attributes and local variables don't count. It takes time
/// linear in the class file.
///
/// # Errors
///
/// Want of memory.
#[tactic(auto, using(crate::proofs::Marking::reserved_by))]
pub fn is_reserved(alloc: Global, class: &ClassFile) -> Result<bool, AllocError>
    ensures { IfOk result (λ answer. answer ≡ rule.is_reserved class.now) }
{
    let marks = marks_of(alloc, class.pool.as_slice())?;
    Ok(is_reserved_by(marks.as_slice(), class))
}
