//! Lines in UTF-8, as bytes of the modified UTF-8 of a class file.

ghost use Rattle.std.specs.Prelude.{◌≡◌, ◌<◌, ◌≤◌, ◌++◌, length, true, option_map, IfSome, OnOk};
ghost use Rattle.class_lines.specs.declared.recoding.Code.{Code};
ghost use Rattle.class_lines.specs.Words.{GivesAs};
ghost use Rattle.class_lines.specs.Recoding.{goes_on, is_second_of_three, is_second_of_four, four_value, high_of, low_of, code_bytes, two_at, three_at, four_at, character_at, modified};

use crate::fault::LineFault;
use aj_names::utf8_write;
use std::alloc::{AllocError, Global};

/// A character, by what it is in modified UTF-8 (JVMS 4.4.7).
#[derive(Clone, Copy, Debug)]
enum Code {
    /// U+0000.
    Zero,
    One(u8),
    Two(u8, u8),
    Three(u8, u8, u8),
    /// A character past U+FFFF, as its surrogates.
    Pair(u16, u16),
}

fn goes_on(byte: u8) -> bool
    ensures { result ≡ goes_on byte }
{
    matches!(byte, 0x80..=0xbf)
}

/// Whether a byte is the second of three: of no shorter form, and of no surrogate.
fn is_second_of_three(first: u8, byte: u8) -> bool
    ensures { result ≡ is_second_of_three first byte }
{
    match first {
        0xe0 => matches!(byte, 0xa0..=0xbf),
        0xed => matches!(byte, 0x80..=0x9f),
        _ => goes_on(byte),
    }
}

/// Whether a byte is the second of four: of no shorter form, and of nothing past U+10FFFF.
fn is_second_of_four(first: u8, byte: u8) -> bool
    ensures { result ≡ is_second_of_four first byte }
{
    match first {
        0xf0 => matches!(byte, 0x90..=0xbf),
        0xf4 => matches!(byte, 0x80..=0x8f),
        _ => goes_on(byte),
    }
}

/// The number of a character of four bytes.
fn four_value(a: u8, b: u8, c: u8, d: u8) -> u32
    requires first { 240 ≤ a }
    requires second { 128 ≤ b }
    requires third { 128 ≤ c }
    requires fourth { 128 ≤ d }
    ensures { result ≡ four_value a b c d }
{
    u32::from(a - 0xf0) * 0x4_0000
        + u32::from(b - 0x80) * 0x1000
        + u32::from(c - 0x80) * 0x40
        + u32::from(d - 0x80)
}

/// The surrogates of a character past U+FFFF.
fn pair(value: u32) -> Code
    requires { value < 1441792 }
    ensures { result ≡ Code.Pair (high_of value) (low_of value) }
{
    let above = value.saturating_sub(0x1_0000);
    Code::Pair(
        (0xd800 + above / 0x400) as u16,
        (0xdc00 + above % 0x400) as u16,
    )
}

/// What stands behind the first of two bytes.
#[tactic(auto, unfolding(crate::specs::Recoding::two_at))]
fn two(a: u8, text: &[u8]) -> Option<(Code, &[u8])>
    ensures exact { option_map (λ x. (x.0, x.1.now)) result ≡ two_at a text.now }
    ensures shorter { IfSome result (λ x. length x.1.now ≤ length text.now) }
{
    match text {
        [b, rest @ ..] if goes_on(*b) => Some((Code::Two(a, *b), rest)),
        _ => None,
    }
}

/// What stands behind the first of three bytes.
#[tactic(auto, unfolding(crate::specs::Recoding::three_at))]
fn three(a: u8, text: &[u8]) -> Option<(Code, &[u8])>
    ensures exact { option_map (λ x. (x.0, x.1.now)) result ≡ three_at a text.now }
    ensures shorter { IfSome result (λ x. length x.1.now ≤ length text.now) }
{
    match text {
        [b, c, rest @ ..] if is_second_of_three(a, *b) && goes_on(*c) => {
            Some((Code::Three(a, *b, *c), rest))
        }
        _ => None,
    }
}

/// The surrogates of four bytes.
fn far(a: u8, b: u8, c: u8, d: u8) -> Code
    requires first { 240 ≤ a }
    requires last { a < 245 }
    requires second { is_second_of_four a b ≡ true }
    requires third { goes_on c ≡ true }
    requires fourth { goes_on d ≡ true }
    ensures { result ≡ Code.Pair (high_of (four_value a b c d)) (low_of (four_value a b c d)) }
{
    pair(four_value(a, b, c, d))
}

/// What stands behind the first of four bytes.
#[tactic(auto, unfolding(crate::specs::Recoding::four_at))]
fn four(a: u8, text: &[u8]) -> Option<(Code, &[u8])>
    requires first { 240 ≤ a }
    requires last { a < 245 }
    ensures exact { option_map (λ x. (x.0, x.1.now)) result ≡ four_at a text.now }
    ensures shorter { IfSome result (λ x. length x.1.now ≤ length text.now) }
{
    match text {
        [b, c, d, rest @ ..] if is_second_of_four(a, *b) && goes_on(*c) && goes_on(*d) => {
            Some((far(a, *b, *c, *d), rest))
        }
        _ => None,
    }
}

/// The character at the front, and what stands behind it.
#[tactic(auto, unfolding(crate::specs::Recoding::character_at))]
fn character(text: &[u8]) -> Option<(Code, &[u8])>
    ensures exact { option_map (λ x. (x.0, x.1.now)) result ≡ character_at text.now }
    ensures shorter { IfSome result (λ x. length x.1.now < length text.now) }
{
    let (first, rest) = text.split_first()?;
    match *first {
        0 => Some((Code::Zero, rest)),
        1..=0x7f => Some((Code::One(*first), rest)),
        0xc2..=0xdf => two(*first, rest),
        0xe0..=0xef => three(*first, rest),
        0xf0..=0xf4 => four(*first, rest),
        _ => None,
    }
}

/// Adds a character.
fn put_code(alloc: Global, out: &mut Vec<u8>, code: Code) -> Result<(), AllocError>
    ensures { OnOk result (out.new.items ≡ out.old.items ++ code_bytes code) }
{
    match code {
        Code::Zero => out.extend_from_slice(&[0xc0, 0x80]),
        Code::One(a) => out.extend_from_slice(&[a]),
        Code::Two(a, b) => out.extend_from_slice(&[a, b]),
        Code::Three(a, b, c) => out.extend_from_slice(&[a, b, c]),
        Code::Pair(high, low) => {
            let bytes = utf8_write(alloc, &[high, low])?;
            out.extend_from_slice(bytes.as_slice())
        }
    }
}

/// A line in UTF-8, in the modified UTF-8 of a class file.
pub(crate) fn modified(alloc: Global, line: &[u8]) -> Result<Vec<u8>, LineFault>
    ensures { GivesAs (λ bytes. bytes.items) result (modified line.now) }
{
    let mut out = Vec::new(alloc);
    let mut rest = line;
    while !rest.is_empty() {
        match character(rest) {
            Some((code, behind)) => {
                put_code(alloc, &mut out, code)?;
                rest = behind;
            }
            None => return Err(LineFault::Form),
        }
    }
    Ok(out)
}
