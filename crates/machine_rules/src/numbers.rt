//! Numbers as texts, and hashes.

ghost use Rattle.std.specs.Prelude.{◌≡◌, ◌++◌, ◌<◌, OnOk};
ghost use Rattle.class_machine.specs.Numbers.{digit, digits, decimal, hexadecimal, count_int};
ghost use Rattle.class_machine.specs.LibraryCalls.{text_hash, long_hash, truth_hash, low_unit, boolean_text};

use itoa::Buffer;
use std::alloc::AllocError;

/// The units of a text whose characters take a byte each.
pub(crate) fn put_bytes(out: &mut Vec<u16>, bytes: &[u8]) -> Result<(), AllocError>
    ensures { OnOk result (out.new.items ≡ out.old.items ++ bytes.now) }
{
    for byte in bytes {
        out.push(u16::from(*byte))?;
    }
    Ok(())
}

/// An int or a long in decimal.
pub(crate) fn put_decimal(out: &mut Vec<u16>, number: i64) -> Result<(), AllocError>
    ensures { OnOk result (out.new.items ≡ out.old.items ++ decimal number) }
{
    let mut buffer = Buffer::new();
    put_bytes(out, buffer.format(number).as_bytes())
}

// A digit, 0 to 9 and then a to f.
fn digit(value: u32) -> u16
    requires { value < 16 }
    ensures { result ≡ digit value }
{
    if value < 10 {
        48 + value as u16
    } else {
        87 + value as u16
    }
}

// Hexadecimal digits, the highest first, at most so many.
fn put_digits(out: &mut Vec<u16>, most: u32, value: u32) -> Result<(), AllocError>
    ensures { OnOk result (out.new.items ≡ out.old.items ++ digits 16 most value) }
{
    if most == 0 {
        return Ok(());
    }
    if value < 16 {
        out.push(digit(value))?;
        return Ok(());
    }
    put_digits(out, most - 1, value / 16)?;
    out.push(digit(value % 16))?;
    Ok(())
}

/// The low 32 bits of a number, in lower hexadecimal without leading zeros.
pub(crate) fn put_hexadecimal(out: &mut Vec<u16>, number: u64) -> Result<(), AllocError>
    ensures { OnOk result (out.new.items ≡ out.old.items ++ hexadecimal number) }
{
    put_digits(out, 8, (number % 4294967296) as u32)
}

/// The low 32 bits of a count, as an int.
pub(crate) fn count_int(count: u64) -> i32
    ensures { result ≡ count_int count }
{
    ((count % 4294967296) as u32).cast_signed()
}

/// The hash of a text: the sum of its units, each times 31 to the power of the number of units after
/// it, in 32 bits.
pub(crate) fn text_hash(units: &[u16]) -> i32
    ensures { result ≡ count_int (text_hash units.now) }
{
    let mut hash: u32 = 0;
    for unit in units {
        hash = hash.wrapping_mul(31).wrapping_add(u32::from(*unit));
    }
    hash.cast_signed()
}

/// The hash of a long: its low 32 bits xor its high ones.
pub(crate) fn long_hash(bits: u64) -> i32
    ensures { result ≡ long_hash bits }
{
    count_int(bits ^ (bits / 4294967296))
}

/// The hash of a boolean.
pub(crate) fn truth_hash(n: i32) -> i32
    ensures { result ≡ truth_hash n }
{
    if n == 0 { 1237 } else { 1231 }
}

/// The unit that an int stands for as a character: its low 16 bits.
pub(crate) fn low_unit(n: i32) -> u16
    ensures { result ≡ low_unit n }
{
    (n.cast_unsigned() % 65536) as u16
}

/// `false` for 0, and `true` for any other number.
pub(crate) fn boolean_text(n: i32) -> &'static [u8]
    ensures { result.now ≡ boolean_text n }
{
    if n == 0 { b"false" } else { b"true" }
}
