//! Whole descriptors: types read from them, and what they say without memory.

ghost use Rattle.std.specs.Prelude.{◌≡◌, ◌≤◌, ◌+◌, false, ◌-◌, ◌^◌, ◌↔◌, min, length, IsSome, IfSome, IsTrue, IfOk, IfErr, MatchOption, MatchResult, if◌then◌else◌};
ghost use Rattle.std.specs.Option.{option_map};
ghost use Rattle.aj_names.specs.declared.types.FieldType.{FieldType};
ghost use Rattle.aj_names.specs.declared.types.MethodType.{MethodType};
ghost use Rattle.aj_names.specs.declared.reading.Stopped.TheVariants as stops;
ghost use Rattle.aj_names.specs.Names.{IsMemberName, IsClassName};
ghost use Rattle.aj_names.specs.Descriptors.{field_spelling, method_spelling, method_slots as all_slots, IsFieldType, IsMethodType, IsFieldDescriptor, IsMethodDescriptor, IsArrayDescriptor, IsInternalName};
ghost use Rattle.aj_names.specs.Slots.{HasSlots};
ghost use Rattle.aj_names.specs.Faults.{RefusesDescriptor, IsFieldFault, IsMethodFault, held_offset};
ghost use Rattle.aj_names.specs.Reading.{Gives, GivesUnless, Answers, counted, method_counted, field_at, params_at, result_at, method_at, whole};
ghost use Rattle.aj_names.specs.Spelled.{type_of};

use crate::descriptors::{SpelledType, spelled_type_at};
use crate::modified_utf8::held;
use crate::names::is_class_name;
use crate::{FieldType, MethodType, NameFault};
use sqlite_items::Items;
use std::alloc::{AllocError, Global};

/// Why a method's type was not read.
pub(crate) enum Stopped {
    /// So many bytes are left from the first wrong one on.
    Left(usize),
    Memory,
}

impl From<usize> for Stopped {
    ghost from_gives = { λ left stop. stop ≡ stops.Left left };

    fn from(left: usize) -> Stopped {
        Stopped::Left(left)
    }
}

impl From<AllocError> for Stopped {
    ghost from_gives = { λ _ stop. stop ≡ stops.Memory };

    fn from(_: AllocError) -> Stopped {
        Stopped::Memory
    }
}

// The fault of a text of which so many bytes are left.
fn bad_descriptor(text: &[u8], left: usize) -> NameFault
    ensures { result ≡ NameFault.BadDescriptor (held_offset (length text.now - left)) }
{
    NameFault::BadDescriptor(held(text.len().saturating_sub(left)))
}

// A field's type that takes up all of the text.
fn spelled_type(text: &[u8]) -> Result<SpelledType<'_>, usize>
    ensures { Gives type_of result (whole (field_at text.now)) }
{
    let (spelled, rest) = spelled_type_at(text)?;
    if rest.is_empty() {
        Ok(spelled)
    } else {
        Err(rest.len())
    }
}

fn read_field(alloc: Global, text: &[u8]) -> Result<FieldType, NameFault>
    ensures { Answers text.now result (whole (field_at text.now)) }
{
    match spelled_type(text) {
        Ok(spelled) => Ok(spelled.to_type(alloc)?),
        Err(left) => Err(bad_descriptor(text, left)),
    }
}

// The parameters up to the `)`, and the bytes after it.
fn params_of(alloc: Global, bytes: &[u8]) -> Result<(Items<FieldType>, &[u8]), Stopped>
    ensures { GivesUnless (λ x. (x.0, x.1.now)) result (params_at (length bytes.now + 1) bytes.now) }
{
    let mut params = Items::new(alloc);
    let mut rest = bytes;
    loop {
        let Some((first, after)) = rest.split_first() else {
            return Err(Stopped::Left(0));
        };
        if *first == b')' {
            return Ok((params, after));
        }
        let (spelled, after) = spelled_type_at(rest)?;
        params.push(spelled.to_type(alloc)?)?;
        rest = after;
    }
}

// The slots of the parameters up to the `)`, and the bytes after it.
fn param_slots_at(bytes: &[u8]) -> Result<(u32, &[u8]), usize>
    ensures { Gives (λ x. (x.0, x.1.now)) result (counted (params_at (length bytes.now + 1) bytes.now)) }
{
    let mut slots = 0u32;
    let mut rest = bytes;
    loop {
        let Some((first, after)) = rest.split_first() else {
            return Err(0);
        };
        if *first == b')' {
            return Ok((slots, after));
        }
        let (spelled, after) = spelled_type_at(rest)?;
        slots = slots.saturating_add(spelled.slots());
        rest = after;
    }
}

// A result, and the bytes after it.
fn spelled_result_at(bytes: &[u8]) -> Result<(Option<SpelledType<'_>>, &[u8]), usize>
    ensures { Gives (λ x. (option_map type_of x.0, x.1.now)) result (result_at bytes.now) }
{
    let Some((first, after)) = bytes.split_first() else {
        return Err(0);
    };
    if *first == b'V' {
        return Ok((None, after));
    }
    let (spelled, after) = spelled_type_at(bytes)?;
    Ok((Some(spelled), after))
}

fn owned(alloc: Global, spelled: Option<SpelledType<'_>>) -> Result<Option<FieldType>, AllocError>
    ensures { IfOk result (λ t. t ≡ option_map type_of spelled.entry) }
{
    match spelled {
        None => Ok(None),
        Some(spelled) => Ok(Some(spelled.to_type(alloc)?)),
    }
}

// A method's type that takes up all of the text, of any number of slots.
fn method_of(alloc: Global, text: &[u8]) -> Result<MethodType, Stopped>
    ensures { GivesUnless (λ m. m) result (whole (method_at text.now)) }
{
    let Some((first, after)) = text.split_first() else {
        return Err(Stopped::Left(0));
    };
    if *first != b'(' {
        return Err(Stopped::Left(text.len()));
    }
    let (params, rest) = params_of(alloc, after)?;
    let (spelled, rest) = spelled_result_at(rest)?;
    if !rest.is_empty() {
        return Err(Stopped::Left(rest.len()));
    }
    Ok(MethodType {
        params,
        result: owned(alloc, spelled)?,
    })
}

// The slots of the parameters of a method's type that takes up all of the text.
fn slots_of(text: &[u8]) -> Result<u32, usize>
    ensures { Gives (λ n. n) result (method_counted (whole (method_at text.now))) }
{
    let Some((first, after)) = text.split_first() else {
        return Err(0);
    };
    if *first != b'(' {
        return Err(text.len());
    }
    let (slots, rest) = param_slots_at(after)?;
    let (_, rest) = spelled_result_at(rest)?;
    if rest.is_empty() {
        Ok(slots)
    } else {
        Err(rest.len())
    }
}

fn read_method(alloc: Global, text: &[u8]) -> Result<MethodType, NameFault>
    ensures found { IfOk result (λ m. IsMethodType m × (all_slots m false ≤ 255) × (text.now ≡ method_spelling m)) }
    ensures only { (m : MethodType) → IsMethodType m → all_slots m false ≤ 255 → text.now ≡ method_spelling m
        → MatchResult result (λ read. read ≡ m) (λ fault. fault ≡ NameFault.Memory) }
    ensures fault { IfErr result (λ fault. RefusesDescriptor fault (IsMethodFault text.now)) }
{
    match method_of(alloc, text) {
        Ok(m) => {
            if m.slots(false) <= 255 {
                Ok(m)
            } else {
                Err(bad_descriptor(text, 0))
            }
        }
        Err(Stopped::Left(left)) => Err(bad_descriptor(text, left)),
        Err(Stopped::Memory) => Err(NameFault::Memory),
    }
}

impl FieldType {
    /// The type that the text describes (JVMS 4.3.2). `BadDescriptor` holds the offset of the first
    /// byte with which no descriptor begins, or the text's length where it is cut.
    pub fn read(alloc: Global, text: &[u8]) -> Result<FieldType, NameFault>
        // What is read is spelled so.
        ensures found { IfOk result (λ t. IsFieldType t × (text.now ≡ field_spelling t)) }
        // What is spelled so is read, unless memory runs out.
        ensures only { (t : FieldType) → IsFieldType t → text.now ≡ field_spelling t
            → MatchResult result (λ read. read ≡ t) (λ fault. fault ≡ NameFault.Memory) }
        // Which fault it is.
        ensures fault { IfErr result (λ fault. RefusesDescriptor fault (IsFieldFault text.now)) }
    {
        read_field(alloc, text)
    }
}

impl MethodType {
    /// The type that the text describes (JVMS 4.3.3). `BadDescriptor` holds the offset of the first
    /// byte with which no descriptor begins, or the text's length where it is cut or the parameters
    /// take more than 255 slots.
    pub fn read(alloc: Global, text: &[u8]) -> Result<MethodType, NameFault>
        // What is read is spelled so.
        ensures found { IfOk result (λ m. IsMethodType m × (all_slots m false ≤ 255) × (text.now ≡ method_spelling m)) }
        // What is spelled so is read, unless memory runs out.
        ensures only { (m : MethodType) → IsMethodType m → all_slots m false ≤ 255 → text.now ≡ method_spelling m
            → MatchResult result (λ read. read ≡ m) (λ fault. fault ≡ NameFault.Memory) }
        // Which fault it is.
        ensures fault { IfErr result (λ fault. RefusesDescriptor fault (IsMethodFault text.now)) }
    {
        read_method(alloc, text)
    }
}

/// Whether the text is the descriptor of a field (JVMS 4.3.2).
pub fn is_field_descriptor(text: &[u8]) -> bool
    ensures { IsTrue result ↔ IsFieldDescriptor text.now }
{
    spelled_type(text).is_ok()
}

/// Whether the text is the descriptor of a method whose parameters take at most 255 slots (JVMS
/// 4.3.3).
pub fn is_method_descriptor(text: &[u8]) -> bool
    ensures { IsTrue result ↔ IsMethodDescriptor text.now }
{
    match slots_of(text) {
        Ok(slots) => slots <= 255,
        Err(_) => false,
    }
}

/// Whether the text is the descriptor of an array (JVMS 4.3.2).
pub fn is_array_descriptor(text: &[u8]) -> bool
    ensures { IsTrue result ↔ IsArrayDescriptor text.now }
{
    match spelled_type(text) {
        Ok(spelled) => spelled.dims > 0,
        Err(_) => false,
    }
}

/// Whether the text may stand in a Class entry: a class name or an array descriptor (JVMS 4.4.1).
pub fn is_internal_name(text: &[u8]) -> bool
    ensures { IsTrue result ↔ IsInternalName text.now }
{
    is_class_name(text) || is_array_descriptor(text)
}

/// How many slots the parameters of the described method take, with one more for a receiver; `None`
/// where the text is no descriptor of a method (JVMS 4.3.3).
pub fn method_slots(text: &[u8], receiver: bool) -> Option<u32>
    ensures some { IsSome result ↔ IsMethodDescriptor text.now }
    ensures count { IfSome result (λ n. HasSlots text.now receiver n) }
{
    match slots_of(text) {
        Ok(slots) => {
            if slots <= 255 {
                Some(u32::from(receiver) + slots)
            } else {
                None
            }
        }
        Err(_) => None,
    }
}
