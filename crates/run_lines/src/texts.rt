//! Texts in quotes.

ghost use Rattle.std.specs.Prelude.{ℕ, ◌<◌, List, length, IfSome};
ghost use Rattle.run_lines.specs.Reading.{Finds, Reads};
ghost use Rattle.run_lines.specs.Splits.{Text};
ghost use Rattle.run_lines.specs.Lists.{IsWordAt, IsListAt};
ghost use Rattle.run_lines.specs.Texts.{IsMarkedAt, IsEscapedAt, AreUnits, IsText, IsClosed};

use crate::fault::WordFault;
use crate::splits::behind_byte;
use sqlite_items::Items;
use std::alloc::Global;
use std::str::from_utf8;

/// A quote or a backslash, and what stands behind it.
fn marked_byte(text: &[u8]) -> Option<(u8, &[u8])>
    ensures exact { Finds {Y = ℕ × Text} (λ found. (found.0, found.1.now)) (λ found. IsMarkedAt text.now found.0 found.1) result }
    ensures shorter { IfSome result (λ found. length found.1.now < length text.now) }
{
    let (first, behind) = text.split_first()?;
    match *first {
        b'"' | b'\\' => Some((*first, behind)),
        _ => None,
    }
}

/// A byte as it is written between quotes, and what stands behind it.
fn escaped_byte(text: &[u8]) -> Option<(u8, &[u8])>
    ensures exact { Finds {Y = ℕ × Text} (λ found. (found.0, found.1.now)) (λ found. IsEscapedAt text.now found.0 found.1) result }
    ensures shorter { IfSome result (λ found. length found.1.now < length text.now) }
{
    let (first, behind) = text.split_first()?;
    match *first {
        b'"' => None,
        b'\\' => marked_byte(behind),
        byte => Some((byte, behind)),
    }
}

/// The bytes of a text up to its closing quote, and what stands behind that.
fn closed_text(alloc: Global, text: &[u8]) -> Result<(Vec<u8>, &[u8]), WordFault>
    ensures { Reads {Y = Text × Text} (λ found. (found.0.items, found.1.now)) (λ found. IsClosed text.now found.0 found.1) result }
{
    let mut bytes = Vec::new(alloc);
    let mut rest = text;
    loop {
        if let Some(behind) = behind_byte(rest, b'"') {
            return Ok((bytes, behind));
        }
        let Some((byte, behind)) = escaped_byte(rest) else {
            return Err(WordFault::Form);
        };
        bytes.push(byte)?;
        rest = behind;
    }
}

/// The UTF-16 units of a text in UTF-8.
pub(crate) fn units_of(alloc: Global, text: &[u8]) -> Result<Vec<u16>, WordFault>
    ensures { Reads (λ units. units.items) (λ units. AreUnits units text.now) result }
{
    let Ok(text) = from_utf8(text) else {
        return Err(WordFault::Form);
    };
    let mut units = Vec::new(alloc);
    for character in text.chars() {
        let mut pair = [0u16; 2];
        let written = character.encode_utf16(&mut pair);
        units.extend_from_slice(written)?;
    }
    Ok(units)
}

/// A text in quotes at the front, and what stands behind it.
pub(crate) fn text_at(alloc: Global, text: &[u8]) -> Result<(Items<u16>, &[u8]), WordFault>
    ensures { Reads {Y = List ℕ × Text} (λ found. (found.0, found.1.now)) (λ found. IsWordAt IsText text.now found.0 found.1) result }
{
    let Some(inside) = behind_byte(text, b'"') else {
        return Err(WordFault::Form);
    };
    let (bytes, behind) = closed_text(alloc, inside)?;
    let units = units_of(alloc, bytes.as_slice())?;
    Ok((Items::from_vec(units), behind))
}

/// A word that is a text in quotes.
pub(crate) fn read_text(alloc: Global, word: &[u8]) -> Result<Items<u16>, WordFault>
    ensures { Reads (λ units. units) (λ units. IsText units word.now) result }
{
    let (units, behind) = text_at(alloc, word)?;
    if behind.is_empty() {
        Ok(units)
    } else {
        Err(WordFault::Form)
    }
}

/// The texts of a list behind its opening bracket, and what stands behind the closing one.
pub(crate) fn closed_texts(
    alloc: Global,
    text: &[u8],
) -> Result<(Items<Items<u16>>, &[u8]), WordFault>
    ensures { Reads {Y = List (List ℕ) × Text} (λ found. (found.0, found.1.now)) (λ found. IsListAt IsText 93 text.now found.0 found.1) result }
{
    let mut texts = Items::new(alloc);
    if let Some(behind) = behind_byte(text, b']') {
        return Ok((texts, behind));
    }
    let mut rest = text;
    loop {
        let (units, behind) = text_at(alloc, rest)?;
        texts.push(units)?;
        if let Some(behind) = behind_byte(behind, b']') {
            return Ok((texts, behind));
        }
        let Some(next) = behind_byte(behind, b',') else {
            return Err(WordFault::Form);
        };
        rest = next;
    }
}
