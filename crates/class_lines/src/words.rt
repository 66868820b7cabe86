//! Words, read from left to right.

ghost use Rattle.std.specs.Prelude.{◌≡◌, ◌<◌, ◌≤◌, ◌^◌, ◌≤ℤ◌, List, IfOk, pos, negsuc};
ghost use Rattle.std.specs.List.{list_all};
ghost use Rattle.class_lines.specs.Fields.{is_inside};
ghost use Rattle.class_lines.specs.Words.{GivesAs, Gives, texts, with_texts, is_plain, is_label_byte, is_label, is_of_kind, fits, keyword_at, word_at, words_at, natural_at, integer_at, number_after, ended};

use crate::fault::LineFault;
use crate::fields::is_inside;
use crate::numbers::{integer, number};
use aj_names::ByteString;
use class_file::{
    is_class_name, is_field_descriptor, is_internal_name, is_member_name, is_method_descriptor,
};
use sqlite_items::Items;
use std::alloc::Global;

/// The longest text of a class file, in bytes (JVMS 4.4.7).
const LONGEST_TEXT: usize = 65_535;

/// What a word must be.
#[derive(Clone, Copy, Debug, PartialEq, Eq)]
pub(crate) enum WordKind {
    /// The name of a class.
    ClassName,
    /// The name of a class, or an array type's descriptor.
    TypeName,
    /// The name of a field or a method.
    MemberName,
    FieldDescriptor,
    MethodDescriptor,
    Label,
}

fn is_label_byte(byte: u8) -> bool
    ensures { result ≡ is_label_byte byte }
{
    byte != b':'
}

#[tactic(auto, unfolding(crate::specs::Words::is_label))]
pub(crate) fn is_label(word: &[u8]) -> bool
    ensures { result ≡ is_label word.now }
{
    !word.is_empty() && word.iter().all(|byte| is_label_byte(*byte))
}

fn has_no_blank(word: &[u8]) -> bool
    ensures { result ≡ list_all is_inside word.now }
{
    word.iter().all(|byte| is_inside(*byte))
}

fn is_plain(word: &[u8]) -> bool
    ensures { result ≡ is_plain word.now }
{
    match word {
        [] | [b'"', ..] => false,
        _ => has_no_blank(word),
    }
}

impl WordKind {
    #[tactic(auto, unfolding(crate::specs::Words::is_of_kind))]
    fn holds(self, word: &[u8]) -> bool
        ensures { result ≡ is_of_kind self word.now }
    {
        match self {
            WordKind::ClassName => is_class_name(word),
            WordKind::TypeName => is_internal_name(word),
            WordKind::MemberName => is_member_name(word),
            WordKind::FieldDescriptor => is_field_descriptor(word),
            WordKind::MethodDescriptor => is_method_descriptor(word),
            WordKind::Label => is_label(word),
        }
    }

    #[tactic(auto, unfolding(crate::specs::Words::fits))]
    pub(crate) fn fits(self, word: &[u8]) -> bool
        ensures { result ≡ fits self word.now }
    {
        is_plain(word) && word.len() <= LONGEST_TEXT && self.holds(word)
    }
}

/// What stands behind a word.
#[tactic(auto, unfolding(crate::specs::Words::keyword_at))]
pub(crate) fn keyword<'w, 'a>(
    words: &'w [&'a [u8]],
    word: &[u8],
) -> Result<&'w [&'a [u8]], LineFault>
    ensures { GivesAs (λ rest. texts rest.now) result (keyword_at word.now (texts words.now)) }
{
    match words {
        [first, rest @ ..] if *first == word => Ok(rest),
        _ => Err(LineFault::Form),
    }
}

/// A word of the kind, and what stands behind it.
#[tactic(auto, unfolding(crate::specs::Words::word_at))]
pub(crate) fn word<'w, 'a>(
    alloc: Global,
    words: &'w [&'a [u8]],
    kind: WordKind,
) -> Result<(ByteString, &'w [&'a [u8]]), LineFault>
    ensures { GivesAs with_texts result (word_at kind (texts words.now)) }
{
    match words {
        [first, rest @ ..] if kind.fits(first) => Ok((ByteString::from_slice(alloc, first)?, rest)),
        _ => Err(LineFault::Form),
    }
}

/// Words that are all of the kind.
#[tactic(auto, unfolding(crate::specs::Words::words_at))]
pub(crate) fn words_of(
    alloc: Global,
    words: &[&[u8]],
    kind: WordKind,
) -> Result<Items<ByteString>, LineFault>
    ensures { Gives result (words_at kind (texts words.now)) }
{
    let mut found = Items::new(alloc);
    for word in words {
        if !kind.fits(word) {
            return Err(LineFault::Form);
        }
        found.push(ByteString::from_slice(alloc, word)?)?;
    }
    Ok(found)
}

/// Nothing is left.
pub(crate) fn end(words: &[&[u8]]) -> Result<(), LineFault>
    ensures { Gives result (ended (texts words.now) tt) }
{
    if words.is_empty() {
        Ok(())
    } else {
        Err(LineFault::Form)
    }
}

/// A decimal number of at most this value, and what stands behind it.
#[tactic(auto, unfolding(crate::specs::Words::natural_at))]
pub(crate) fn natural<'w, 'a>(
    words: &'w [&'a [u8]],
    most: u64,
) -> Result<(u64, &'w [&'a [u8]]), LineFault>
    ensures exact { GivesAs with_texts result (natural_at most (texts words.now)) }
    ensures range { IfOk result (λ x. x.0 ≤ most) }
{
    let [word, rest @ ..] = words else {
        return Err(LineFault::Form);
    };
    match number(10, most, word) {
        Some(n) => Ok((n, rest)),
        None => Err(LineFault::Form),
    }
}

/// A decimal number from `-(most + 1)` to `most`, and what stands behind it.
#[tactic(auto, unfolding(crate::specs::Words::integer_at))]
pub(crate) fn signed<'w, 'a>(
    words: &'w [&'a [u8]],
    most: u64,
) -> Result<(i64, &'w [&'a [u8]]), LineFault>
    requires { most < 2 ^ 63 }
    ensures exact { GivesAs with_texts result (integer_at most (texts words.now)) }
    ensures range { IfOk result (λ x. (negsuc most ≤ℤ x.0) × (x.0 ≤ℤ pos most)) }
{
    let [word, rest @ ..] = words else {
        return Err(LineFault::Form);
    };
    match integer(most, word) {
        Some(n) => Ok((n, rest)),
        None => Err(LineFault::Form),
    }
}

/// A word, and then a number of at most this value.
#[tactic(auto, unfolding(crate::specs::Words::number_after))]
pub(crate) fn number_after<'w, 'a>(
    words: &'w [&'a [u8]],
    word: &[u8],
    most: u64,
) -> Result<(u64, &'w [&'a [u8]]), LineFault>
    ensures exact { GivesAs with_texts result (number_after word.now most (texts words.now)) }
    ensures range { IfOk result (λ x. x.0 ≤ most) }
{
    natural(keyword(words, word)?, most)
}
