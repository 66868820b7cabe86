//! The arithmetic of ints and longs (JVMS 3.11.3, 3.11.4).

ghost use Rattle.std.specs.Prelude.{◌≡◌};
ghost use Rattle.std.specs.Int.{IsNonZero, w8, w16, w32, w64};
ghost use Rattle.class_machine.specs.Numbers.{binary, divide, shift, low_signed, low_unsigned, compare, passes};

use class_machine::kinds::{Binary, Division, Shift, Test};

/// The sum, difference or product wraps to 32 bits.
pub fn int_binary(op: Binary, x: i32, y: i32) -> i32
    ensures { result ≡ binary w32 op x y }
{
    match op {
        Binary::Add => x.wrapping_add(y),
        Binary::Subtract => x.wrapping_sub(y),
        Binary::Multiply => x.wrapping_mul(y),
        Binary::And => x & y,
        Binary::Or => x | y,
        Binary::Xor => x ^ y,
    }
}

/// The sum, difference or product wraps to 64 bits.
pub fn long_binary(op: Binary, x: i64, y: i64) -> i64
    ensures { result ≡ binary w64 op x y }
{
    match op {
        Binary::Add => x.wrapping_add(y),
        Binary::Subtract => x.wrapping_sub(y),
        Binary::Multiply => x.wrapping_mul(y),
        Binary::And => x & y,
        Binary::Or => x | y,
        Binary::Xor => x ^ y,
    }
}

/// Towards zero; the least int divided by -1 is itself.
pub fn int_divide(op: Division, x: i32, y: i32) -> i32
    requires { IsNonZero w32 y }
    ensures { result ≡ divide w32 op x y }
{
    match op {
        Division::Quotient => x.wrapping_div(y),
        Division::Remainder => x.wrapping_rem(y),
    }
}

/// Towards zero; the least long divided by -1 is itself.
pub fn long_divide(op: Division, x: i64, y: i64) -> i64
    requires { IsNonZero w64 y }
    ensures { result ≡ divide w64 op x y }
{
    match op {
        Division::Quotient => x.wrapping_div(y),
        Division::Remainder => x.wrapping_rem(y),
    }
}

/// By the low 5 bits of the count.
pub fn int_shift(op: Shift, x: i32, count: i32) -> i32
    ensures { result ≡ shift w32 op x count }
{
    let count = count.cast_unsigned();
    match op {
        Shift::Left => x.wrapping_shl(count),
        Shift::Right => x.wrapping_shr(count),
        Shift::Unsigned => x.cast_unsigned().wrapping_shr(count).cast_signed(),
    }
}

/// By the low 6 bits of the count.
pub fn long_shift(op: Shift, x: i64, count: i32) -> i64
    ensures { result ≡ shift w64 op x count }
{
    let count = count.cast_unsigned();
    match op {
        Shift::Left => x.wrapping_shl(count),
        Shift::Right => x.wrapping_shr(count),
        Shift::Unsigned => x.cast_unsigned().wrapping_shr(count).cast_signed(),
    }
}

/// -1, 0 or 1, as the first is less, equal or greater.
pub fn compare_longs(x: i64, y: i64) -> i32
    ensures { result ≡ compare x y }
{
    if x < y {
        -1
    } else if x == y {
        0
    } else {
        1
    }
}

/// Whether the first compares with the second as the test asks.
pub fn test_passes(test: Test, x: i32, y: i32) -> bool
    ensures { result ≡ passes test x y }
{
    match test {
        Test::Equal => x == y,
        Test::NotEqual => x != y,
        Test::Less => x < y,
        Test::AtLeast => x >= y,
        Test::Greater => x > y,
        Test::AtMost => x <= y,
    }
}

/// The low 32 bits, with their sign.
pub fn long_to_int(x: i64) -> i32
    ensures { result ≡ low_signed w64 w32 x }
{
    ((x.cast_unsigned() & 0xffff_ffff) as u32).cast_signed()
}

/// The low 8 bits, with their sign.
pub fn int_to_byte(x: i32) -> i32
    ensures { result ≡ low_signed w32 w8 x }
{
    ((x.cast_unsigned() & 0xff) as u8).cast_signed() as i32
}

/// The low 16 bits, with their sign.
pub fn int_to_short(x: i32) -> i32
    ensures { result ≡ low_signed w32 w16 x }
{
    ((x.cast_unsigned() & 0xffff) as u16).cast_signed() as i32
}

/// The low 16 bits, without sign.
pub fn int_to_char(x: i32) -> i32
    ensures { result ≡ low_unsigned w16 x }
{
    (x.cast_unsigned() & 0xffff) as i32
}
