//! How texts, numbers and names are printed.

ghost use Rattle.std.specs.Prelude.{◌≡◌, ◌==◌, ◌++◌, ◌<◌, ◌∷◌, [], if◌then◌else◌, pos, OnOk};
ghost use Rattle.class_heads.specs.Hierarchy.{before_semicolon};
ghost use Rattle.class_machine.specs.Classes.{dotted};
ghost use Rattle.class_machine.specs.Numbers.{digit, decimal};
ghost use Rattle.class_machine.specs.Descriptors.{element_of};
ghost use Rattle.class_machine.specs.Lines.{fixed_digits, quoted_unit, quoted, primitive_name, type_name};

use itoa::Buffer;
use std::alloc::AllocError;

pub(crate) fn put(out: &mut Vec<u8>, bytes: &[u8]) -> Result<(), AllocError>
    ensures { OnOk result (out.new.items ≡ out.old.items ++ bytes.now) }
{
    out.extend_from_slice(bytes)
}

/// An int or a long in decimal.
pub(crate) fn put_integer(out: &mut Vec<u8>, number: i64) -> Result<(), AllocError>
    ensures { OnOk result (out.new.items ≡ out.old.items ++ decimal number) }
{
    let mut buffer = Buffer::new();
    put(out, buffer.format(number).as_bytes())
}

/// A number in decimal.
pub(crate) fn put_number(out: &mut Vec<u8>, number: u64) -> Result<(), AllocError>
    ensures { OnOk result (out.new.items ≡ out.old.items ++ decimal (pos number)) }
{
    let mut buffer = Buffer::new();
    put(out, buffer.format(number).as_bytes())
}

fn digit(value: u8) -> u8
    requires { value < 16 }
    ensures { result ≡ digit value }
{
    if value < 10 { b'0' + value } else { 87 + value }
}

/// So many hexadecimal digits.
pub(crate) fn put_digits(out: &mut Vec<u8>, count: u32, value: u64) -> Result<(), AllocError>
    ensures { OnOk result (out.new.items ≡ out.old.items ++ fixed_digits count value) }
{
    if count > 0 {
        put_digits(out, count - 1, value / 16)?;
        out.push(digit((value % 16) as u8))?;
    }
    Ok(())
}

/// A unit within quotes.
fn put_unit(out: &mut Vec<u8>, unit: u16) -> Result<(), AllocError>
    ensures { OnOk result (out.new.items ≡ out.old.items ++ quoted_unit unit) }
{
    match unit {
        0x22 | 0x5c => put(out, &[b'\\', unit as u8]),
        0x0a => put(out, b"\\n"),
        0x20..=0x7e => put(out, &[unit as u8]),
        _ => {
            put(out, b"\\u")?;
            put_digits(out, 4, u64::from(unit))
        }
    }
}

/// A text in double quotes.
pub(crate) fn put_quoted(out: &mut Vec<u8>, units: &[u16]) -> Result<(), AllocError>
    ensures { OnOk result (out.new.items ≡ out.old.items ++ quoted units.now) }
{
    put(out, b"\"")?;
    for unit in units {
        put_unit(out, *unit)?;
    }
    put(out, b"\"")
}

fn dotted_byte(byte: u8) -> u8
    ensures { result ≡ (if byte == 47 then 46 else byte) }
{
    match byte {
        b'/' => b'.',
        _ => byte,
    }
}

/// A name with dots for its slashes.
pub(crate) fn put_dotted(out: &mut Vec<u8>, name: &[u8]) -> Result<(), AllocError>
    ensures { OnOk result (out.new.items ≡ out.old.items ++ dotted name.now) }
{
    for byte in name {
        out.push(dotted_byte(*byte))?;
    }
    Ok(())
}

fn before_semicolon(name: &[u8]) -> &[u8]
    ensures { result.now ≡ before_semicolon name.now }
{
    for (place, byte) in name.iter().enumerate() {
        if *byte == b';' {
            return &name[..place];
        }
    }
    name
}

/// The name of a primitive type, by its descriptor's first byte (JVMS 4.3.2).
fn primitive_name(first: u8) -> &'static [u8]
    ensures { result.now ≡ primitive_name (element_of (first ∷ [])) }
{
    match first {
        b'Z' => b"boolean",
        b'B' => b"byte",
        b'C' => b"char",
        b'S' => b"short",
        b'I' => b"int",
        b'J' => b"long",
        b'F' => b"float",
        b'D' => b"double",
        _ => b"",
    }
}

/// The name of a type by its descriptor.
pub(crate) fn put_type_name(out: &mut Vec<u8>, descriptor: &[u8]) -> Result<(), AllocError>
    ensures { OnOk result (out.new.items ≡ out.old.items ++ type_name descriptor.now) }
{
    match descriptor {
        [] => Ok(()),
        [b'[', element @ ..] => {
            put_type_name(out, element)?;
            put(out, b"[]")
        }
        [b'L', class @ ..] => put_dotted(out, before_semicolon(class)),
        [first, ..] => put(out, primitive_name(*first)),
    }
}
