//! Modified UTF-8 (JVMS 4.4.7): bytes and UTF-16 units, both ways.

ghost use Rattle.std.specs.Prelude.{◌≡◌, ℕ, ◌+◌, ◌-◌, ◌*◌, ◌<◌, ◌≤◌, ◌∷◌, ◌++◌, ◌↔◌, List, length, IsTrue, IfOk, IfErr, MatchOption, MatchResult, OnOk};
ghost use Rattle.aj_names.specs.ModifiedUtf8.{unit_spelling, text_spelling, IsUnit, AreUnits, IsUtf8Text, IsUtf8Fault, BeginsNoUnit};
ghost use Rattle.aj_names.specs.Faults.{RefusesUtf8, held_offset};

use crate::NameFault;
use std::alloc::{AllocError, Global};

fn is_continuation(byte: u8) -> bool
    ensures { IsTrue result ↔ ((128 ≤ byte) × (byte ≤ 191)) }
{
    matches!(byte, 0x80..=0xbf)
}

// The unit of two bytes, the first of which is `lead`, and the bytes after it.
fn two_bytes(lead: u8, after: &[u8]) -> Option<(u16, &[u8])>
    requires low { 192 ≤ lead }
    requires high { lead ≤ 223 }
    ensures { MatchOption result (BeginsNoUnit (lead ∷ after.now)) (λ x. lead ∷ after.now ≡ unit_spelling x.0 ++ x.1.now) }
{
    let (next, rest) = after.split_first()?;
    if !is_continuation(*next) {
        return None;
    }
    let unit = u16::from(lead - 0xc0) * 64 + u16::from(*next - 0x80);
    if unit == 0 || unit >= 0x80 {
        Some((unit, rest))
    } else {
        None
    }
}

// The unit of three bytes, the first of which is `lead`, and the bytes after it.
fn three_bytes(lead: u8, after: &[u8]) -> Option<(u16, &[u8])>
    requires low { 224 ≤ lead }
    requires high { lead ≤ 239 }
    ensures { MatchOption result (BeginsNoUnit (lead ∷ after.now)) (λ x. lead ∷ after.now ≡ unit_spelling x.0 ++ x.1.now) }
{
    let (middle, after) = after.split_first()?;
    if !is_continuation(*middle) {
        return None;
    }
    let (last, rest) = after.split_first()?;
    if !is_continuation(*last) {
        return None;
    }
    let unit = u16::from(lead - 0xe0) * 4096
        + u16::from(*middle - 0x80) * 64
        + u16::from(*last - 0x80);
    if unit >= 0x800 {
        Some((unit, rest))
    } else {
        None
    }
}

// The first unit of the bytes and the bytes after it; `None` where none is spelled there.
fn first_unit(bytes: &[u8]) -> Option<(u16, &[u8])>
    ensures { MatchOption result (BeginsNoUnit bytes.now) (λ x. IsUnit x.0 × (bytes.now ≡ unit_spelling x.0 ++ x.1.now)) }
{
    let (lead, after) = bytes.split_first()?;
    match *lead {
        0x01..=0x7f => Some((u16::from(*lead), after)),
        0xc0..=0xdf => two_bytes(*lead, after),
        0xe0..=0xef => three_bytes(*lead, after),
        _ => None,
    }
}

// An offset as a fault holds it.
pub(crate) fn held(offset: usize) -> u32
    ensures { result ≡ held_offset offset }
{
    u32::try_from(offset).unwrap_or(u32::MAX)
}

fn read_units(alloc: Global, bytes: &[u8]) -> Result<Vec<u16>, NameFault>
    ensures found { IfOk result (λ units. bytes.now ≡ text_spelling units.items) }
    ensures fit { IfOk result (λ units. AreUnits units.items) }
    ensures fault { IfErr result (λ fault. RefusesUtf8 fault (IsUtf8Fault bytes.now)) }
{
    let mut units = Vec::new(alloc);
    let mut rest = bytes;
    while !rest.is_empty() {
        match first_unit(rest) {
            Some((unit, after)) => {
                units.push(unit)?;
                rest = after;
            }
            None => return Err(NameFault::BadUtf8(held(bytes.len() - rest.len()))),
        }
    }
    Ok(units)
}

// Where the first wrong sequence begins.
fn wrong_sequence(bytes: &[u8]) -> Option<usize>
    ensures { MatchOption result (IsUtf8Text bytes.now) (IsUtf8Fault bytes.now) }
{
    let mut rest = bytes;
    while !rest.is_empty() {
        match first_unit(rest) {
            Some((_, after)) => rest = after,
            None => return Some(bytes.len() - rest.len()),
        }
    }
    None
}

fn put_unit(out: &mut Vec<u8>, unit: u16) -> Result<(), AllocError>
    ensures { OnOk result (out.new.items ≡ out.old.items ++ unit_spelling unit) }
{
    match unit {
        0x01..=0x7f => out.push(unit as u8)?,
        0..=0x7ff => {
            out.push((0xc0 + unit / 64) as u8)?;
            out.push((0x80 + unit % 64) as u8)?;
        }
        _ => {
            out.push((0xe0 + unit / 4096) as u8)?;
            out.push((0x80 + unit / 64 % 64) as u8)?;
            out.push((0x80 + unit % 64) as u8)?;
        }
    }
    Ok(())
}

/// The UTF-16 units of a text in modified UTF-8 (JVMS 4.4.7). `BadUtf8` holds the offset of the first
/// byte of the first wrong sequence.
pub fn utf8_read(alloc: Global, bytes: &[u8]) -> Result<Vec<u16>, NameFault>
    // What is read is spelled so.
    ensures found { IfOk result (λ units. bytes.now ≡ text_spelling units.items) }
    // What is spelled so is read, unless memory runs out.
    ensures only { (units : List ℕ) → AreUnits units → bytes.now ≡ text_spelling units
        → MatchResult result (λ read. read.items ≡ units) (λ fault. fault ≡ NameFault.Memory) }
    // Which fault it is.
    ensures fault { IfErr result (λ fault. RefusesUtf8 fault (IsUtf8Fault bytes.now)) }
{
    read_units(alloc, bytes)
}

/// The offset of the first byte of the first wrong sequence, or `None` where the bytes are a text in
/// modified UTF-8 (JVMS 4.4.7).
pub fn utf8_fault(bytes: &[u8]) -> Option<u32>
    ensures { MatchOption result (IsUtf8Text bytes.now) (λ at. RefusesUtf8 (NameFault.BadUtf8 at) (IsUtf8Fault bytes.now)) }
{
    Some(held(wrong_sequence(bytes)?))
}

/// Whether the bytes are a text in modified UTF-8 (JVMS 4.4.7).
pub fn is_utf8(bytes: &[u8]) -> bool
    ensures { IsTrue result ↔ IsUtf8Text bytes.now }
{
    wrong_sequence(bytes).is_none()
}

/// The text of the units in modified UTF-8 (JVMS 4.4.7).
pub fn utf8_write(alloc: Global, units: &[u16]) -> Result<Vec<u8>, AllocError>
    ensures { IfOk result (λ bytes. bytes.items ≡ text_spelling units.now) }
{
    let mut out = Vec::new(alloc);
    for unit in units {
        put_unit(&mut out, *unit)?;
    }
    Ok(out)
}
