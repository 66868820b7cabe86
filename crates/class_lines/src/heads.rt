//! The lines of a class, a field and a method.

ghost use Rattle.std.specs.Prelude.{◌≡◌};
ghost use Rattle.std.specs.Option.{option_or};
ghost use Rattle.class_lines.specs.Words.{GivesAs, Gives, texts, with_texts};
ghost use Rattle.class_lines.specs.Heads.{flags_at, interfaces_at, version_at, class_at, head_at, field_at, takes_few, method_at, bare_at, static_field_at, static_method_at, any_field_at, any_method_at};

use crate::fault::LineFault;
use crate::line::{Line, MemberHead};
use crate::words::{WordKind, end, keyword, natural, number_after, word, words_of};
use aj_names::ByteString;
use class_file::is_method_descriptor_with;
use sqlite_items::Items;
use std::alloc::Global;

/// The flag of what is static (JVMS 4.5, 4.6).
const STATIC: u16 = 8;

/// The flags of a public class (JVMS 4.1).
const CLASS_FLAGS: u16 = 0x21;

/// The flags of a public member (JVMS 4.5, 4.6).
const MEMBER_FLAGS: u16 = 1;

/// `flags N`, or what holds without it, and what stands behind.
#[tactic(auto, unfolding(crate::specs::Heads::flags_at))]
fn flags<'w, 'a>(words: &'w [&'a [u8]], default: u16) -> Result<(u16, &'w [&'a [u8]]), LineFault>
    ensures { GivesAs with_texts result (flags_at default (texts words.now)) }
{
    match words {
        [first, rest @ ..] if *first == b"flags".as_slice() => {
            let (flags, rest) = natural(rest, 65_535)?;
            Ok((flags as u16, rest))
        }
        _ => Ok((default, words)),
    }
}

/// `interface NAME {NAME}`, or nothing.
#[tactic(auto, unfolding(crate::specs::Heads::interfaces_at))]
fn interfaces(alloc: Global, words: &[&[u8]]) -> Result<Items<ByteString>, LineFault>
    ensures { Gives result (interfaces_at (texts words.now)) }
{
    match words {
        [] => Ok(Items::new(alloc)),
        [first, names @ ..] if !names.is_empty() && *first == b"interface".as_slice() => {
            words_of(alloc, names, WordKind::ClassName)
        }
        _ => Err(LineFault::Form),
    }
}

/// `version N`, of Java 1.2 to 5, and what stands behind.
#[tactic(auto, unfolding(crate::specs::Heads::version_at))]
fn version<'w, 'a>(words: &'w [&'a [u8]]) -> Result<(u16, &'w [&'a [u8]]), LineFault>
    ensures { GivesAs with_texts result (version_at (texts words.now)) }
{
    let (version, rest) = number_after(words, b"version", 49)?;
    if version >= 46 {
        Ok((version as u16, rest))
    } else {
        Err(LineFault::Form)
    }
}

/// What stands behind `class`.
#[tactic(auto, unfolding(crate::specs::Heads::class_at))]
pub(crate) fn class_line(alloc: Global, words: &[&[u8]]) -> Result<Line, LineFault>
    ensures { Gives result (class_at (texts words.now)) }
{
    let (name, rest) = word(alloc, words, WordKind::ClassName)?;
    let rest = keyword(rest, b"super")?;
    let (super_name, rest) = word(alloc, rest, WordKind::ClassName)?;
    let (version, rest) = version(rest)?;
    let (flags, rest) = flags(rest, CLASS_FLAGS)?;
    let interfaces = interfaces(alloc, rest)?;
    Ok(Line::Class {
        name,
        super_name,
        version,
        flags,
        interfaces,
    })
}

/// The name and the descriptor of a member, and its flags, to which some are added.
#[tactic(auto, unfolding(crate::specs::Heads::head_at))]
fn head<'w, 'a>(
    alloc: Global,
    words: &'w [&'a [u8]],
    kind: WordKind,
    added: u16,
) -> Result<(MemberHead, &'w [&'a [u8]]), LineFault>
    ensures { GivesAs with_texts result (head_at kind added (texts words.now)) }
{
    let (name, rest) = word(alloc, words, WordKind::MemberName)?;
    let (descriptor, rest) = word(alloc, rest, kind)?;
    let (flags, rest) = flags(rest, MEMBER_FLAGS)?;
    let head = MemberHead {
        name,
        descriptor,
        flags: flags | added,
    };
    Ok((head, rest))
}

#[tactic(auto, unfolding(crate::specs::Heads::field_at))]
fn field(alloc: Global, words: &[&[u8]], added: u16) -> Result<Line, LineFault>
    ensures { Gives result (field_at added (texts words.now)) }
{
    let (head, rest) = head(alloc, words, WordKind::FieldDescriptor, added)?;
    end(rest)?;
    Ok(Line::Field(head))
}

/// Whether the receiver and the parameters take at most 255 slots (JVMS 4.10).
#[tactic(auto, unfolding(crate::specs::Heads::takes_few))]
fn takes_few(head: &MemberHead) -> bool
    ensures { result ≡ takes_few head.now }
{
    is_method_descriptor_with(head.descriptor.as_slice(), head.flags & STATIC == 0)
}

#[tactic(auto, unfolding(crate::specs::Heads::method_at))]
fn method(alloc: Global, words: &[&[u8]], added: u16) -> Result<Line, LineFault>
    ensures { Gives result (method_at added (texts words.now)) }
{
    let (head, rest) = head(alloc, words, WordKind::MethodDescriptor, added)?;
    let (stack, rest) = number_after(rest, b"stack", 65_535)?;
    let (locals, rest) = number_after(rest, b"locals", 65_535)?;
    end(rest)?;
    if !takes_few(&head) {
        return Err(LineFault::Form);
    }
    Ok(Line::Method {
        head,
        stack: stack as u16,
        locals: locals as u16,
    })
}

/// A method without code, whose flags are written.
#[tactic(auto, unfolding(crate::specs::Heads::bare_at))]
fn bare(alloc: Global, words: &[&[u8]]) -> Result<Line, LineFault>
    ensures { Gives result (bare_at (texts words.now)) }
{
    let (name, rest) = word(alloc, words, WordKind::MemberName)?;
    let (descriptor, rest) = word(alloc, rest, WordKind::MethodDescriptor)?;
    let (flags, rest) = number_after(rest, b"flags", 65_535)?;
    let rest = keyword(rest, b"none")?;
    end(rest)?;
    let head = MemberHead {
        name,
        descriptor,
        flags: flags as u16,
    };
    if takes_few(&head) {
        Ok(Line::Bare(head))
    } else {
        Err(LineFault::Form)
    }
}

fn static_field(alloc: Global, words: &[&[u8]]) -> Result<Line, LineFault>
    ensures { Gives result (static_field_at (texts words.now)) }
{
    field(alloc, keyword(words, b"static")?, STATIC)
}

/// What stands behind `field`.
#[tactic(auto, unfolding(crate::specs::Heads::any_field_at))]
pub(crate) fn field_line(alloc: Global, words: &[&[u8]]) -> Result<Line, LineFault>
    ensures { Gives result (any_field_at (texts words.now)) }
{
    match field(alloc, words, 0) {
        Err(LineFault::Form) => static_field(alloc, words),
        answer => answer,
    }
}

fn static_method(alloc: Global, words: &[&[u8]]) -> Result<Line, LineFault>
    ensures { Gives result (static_method_at (texts words.now)) }
{
    method(alloc, keyword(words, b"static")?, STATIC)
}

fn method_with_code(alloc: Global, words: &[&[u8]]) -> Result<Line, LineFault>
    ensures { Gives result (option_or (method_at 0 (texts words.now)) (static_method_at (texts words.now))) }
{
    match method(alloc, words, 0) {
        Err(LineFault::Form) => static_method(alloc, words),
        answer => answer,
    }
}

/// What stands behind `method`.
#[tactic(auto, unfolding(crate::specs::Heads::any_method_at))]
pub(crate) fn method_line(alloc: Global, words: &[&[u8]]) -> Result<Line, LineFault>
    ensures { Gives result (any_method_at (texts words.now)) }
{
    match method_with_code(alloc, words) {
        Err(LineFault::Form) => bare(alloc, words),
        answer => answer,
    }
}
