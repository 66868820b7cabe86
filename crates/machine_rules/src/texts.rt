//! Names of classes as texts, and back.

ghost use Rattle.std.specs.Prelude.{◌≡◌, ◌==◌, ◌+◌, ◌*◌, ◌%◌, ◌++◌, ◌<◌, ◌∷◌, [], if◌then◌else◌, nat_eq, length, map, MatchOption, IfOk, OnOk};
ghost use Rattle.std.specs.List.{list_any};
ghost use Rattle.class_machine.specs.Classes.{dotted};
ghost use Rattle.class_machine.specs.Texts.{units_of, class_text, class_of_text, is_reserved, is_unfit};

use aj_names::utf8_write;
use std::alloc::{AllocError, Global};

fn dotted_byte(byte: u8) -> u8
    ensures { result ≡ (if byte == 47 then 46 else byte) }
{
    match byte {
        b'/' => b'.',
        _ => byte,
    }
}

// A name with dots for its slashes.
fn dotted(alloc: Global, name: &[u8]) -> Result<Vec<u8>, AllocError>
    ensures { IfOk result (λ bytes. bytes.items ≡ dotted name.now) }
{
    let mut bytes = Vec::new(alloc);
    for byte in name {
        bytes.push(dotted_byte(*byte))?;
    }
    Ok(bytes)
}

// The unit of two bytes.
fn two_bytes(first: u8, second: u8) -> u16
    ensures { result ≡ (first % 32) * 64 + second % 64 }
{
    u16::from(first % 32) * 64 + u16::from(second % 64)
}

// The unit of three bytes.
fn three_bytes(first: u8, second: u8, third: u8) -> u16
    ensures { result ≡ (first % 16) * 4096 + (second % 64) * 64 + third % 64 }
{
    u16::from(first % 16) * 4096 + u16::from(second % 64) * 64 + u16::from(third % 64)
}

// The first unit of a text in modified UTF-8 (JVMS 4.4.7), and the bytes behind it.
fn first_unit(bytes: &[u8]) -> Option<(u16, &[u8])>
    ensures units { MatchOption result (units_of bytes.now ≡ []) (λ x. units_of bytes.now ≡ x.0 ∷ units_of x.1.now) }
    ensures less { MatchOption result (bytes.now ≡ []) (λ x. length x.1.now < length bytes.now) }
{
    match bytes {
        [] => None,
        [only] => Some((u16::from(*only), &[])),
        [first, rest @ ..] if *first < 128 => Some((u16::from(*first), rest)),
        [first, second] => Some((two_bytes(*first, *second), &[])),
        [first, second, rest @ ..] if *first < 224 => Some((two_bytes(*first, *second), rest)),
        [first, second, third, rest @ ..] => Some((three_bytes(*first, *second, *third), rest)),
    }
}

// The units of a text in modified UTF-8.
fn put_units(out: &mut Vec<u16>, bytes: &[u8]) -> Result<(), AllocError>
    ensures { OnOk result (out.new.items ≡ out.old.items ++ units_of bytes.now) }
{
    let mut rest = bytes;
    while let Some((unit, behind)) = first_unit(rest) {
        out.push(unit)?;
        rest = behind;
    }
    Ok(())
}

/// The units of the dotted name of a class or array type.
pub(crate) fn put_class(alloc: Global, out: &mut Vec<u16>, name: &[u8]) -> Result<(), AllocError>
    ensures { OnOk result (out.new.items ≡ out.old.items ++ class_text name.now) }
{
    let bytes = dotted(alloc, name)?;
    put_units(out, bytes.as_slice())
}

fn slashed_unit(unit: u16) -> u16
    ensures { result ≡ (if unit == 46 then 47 else unit) }
{
    match unit {
        46 => 47,
        _ => unit,
    }
}

/// The class or array type of which a text would be the dotted name.
pub(crate) fn class_of_text(alloc: Global, units: &[u16]) -> Result<Vec<u8>, AllocError>
    ensures { IfOk result (λ bytes. bytes.items ≡ class_of_text units.now) }
{
    let mut slashed = Vec::new(alloc);
    for unit in units {
        slashed.push(slashed_unit(*unit))?;
    }
    utf8_write(alloc, slashed.as_slice())
}

// The units of `ajc$`.
const RESERVED: [u16; 4] = [97, 106, 99, 36];

// Whether `ajc$` is in the text.
fn is_reserved(units: &[u16]) -> bool
    ensures { result ≡ is_reserved units.now }
{
    let mut rest = units;
    while let [_, behind @ ..] = rest {
        if rest.starts_with(&RESERVED) {
            return true;
        }
        rest = behind;
    }
    false
}

fn contains(units: &[u16], unit: u16) -> bool
    ensures { result ≡ list_any (nat_eq unit) units.now }
{
    units.iter().any(|other| unit == *other)
}

/// Whether no class has such a dotted name, or it is one that a program may not find.
pub(crate) fn is_unfit(units: &[u16]) -> bool
    ensures { result ≡ is_unfit units.now }
{
    contains(units, 47) || is_reserved(units)
}
