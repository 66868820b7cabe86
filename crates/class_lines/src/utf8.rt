//! Bytes of modified UTF-8, in UTF-8.

ghost use Rattle.std.specs.Prelude.{◌≡◌, ◌+◌, ◌*◌, ◌++◌, ◌<◌, length, IfSome, OnOk};
ghost use Rattle.std.specs.Option.{option_map};
ghost use Rattle.class_lines.specs.Pairs.{pair_at};
ghost use Rattle.class_lines.specs.Utf8.{utf8_of, four_bytes, is_surrogate};

use std::alloc::AllocError;

/// Whether three bytes are a surrogate whose second byte is one of the 16 from the least one on.
fn is_surrogate(least: u8, first: u8, second: u8, third: u8) -> bool
    requires { least < 240 }
    ensures { result ≡ is_surrogate least first second third }
{
    first == 0xed && (least..least + 16).contains(&second) && (0x80..0xc0).contains(&third)
}

/// The ten bits of a surrogate: four of its second byte and six of its third one.
fn bits(four: u8, six: u8) -> u32
    requires four { four < 16 }
    requires six { six < 64 }
    ensures bits { result ≡ four * 64 + six }
    ensures ten { result < 1024 }
{
    u32::from(four) * 64 + u32::from(six)
}

/// The ten bits of each of two surrogates at the front, the high one first, and what follows them.
fn pair_at(bytes: &[u8]) -> Option<(u32, u32, &[u8])>
    ensures split { option_map (λ pair. (pair.0, pair.1, pair.2.now)) result ≡ pair_at bytes.now }
    ensures high { IfSome result (λ pair. pair.0 < 1024) }
    ensures low { IfSome result (λ pair. pair.1 < 1024) }
    ensures shorter { IfSome result (λ pair. length pair.2.now < length bytes.now) }
{
    match bytes {
        [first, second, third, fourth, fifth, sixth, rest @ ..]
            if is_surrogate(0xa0, *first, *second, *third)
                && is_surrogate(0xb0, *fourth, *fifth, *sixth) => {
            let high = bits(*second - 0xa0, *third - 0x80);
            let low = bits(*fifth - 0xb0, *sixth - 0x80);
            Some((high, low, rest))
        }
        _ => None,
    }
}

/// The four bytes of a character past U+FFFF, by the ten bits of each of its surrogates.
fn four_bytes(high: u32, low: u32) -> [u8; 4]
    requires high { high < 1024 }
    requires low { low < 1024 }
    ensures { result ≡ four_bytes high low }
{
    let n = 0x10000 + high * 1024 + low;
    [
        (0xf0 + n / 0x40000) as u8,
        (0x80 + n / 0x1000 % 64) as u8,
        (0x80 + n / 64 % 64) as u8,
        (0x80 + n % 64) as u8,
    ]
}

/// Adds bytes of modified UTF-8 to a text in UTF-8 (JVMS 4.4.7): two surrogates, of three bytes each,
/// become the character that they stand for, and each other byte stays.
pub fn put_utf8(out: &mut Vec<u8>, bytes: &[u8]) -> Result<(), AllocError>
    ensures { OnOk result (out.new.items ≡ out.old.items ++ utf8_of bytes.now) }
{
    let mut rest = bytes;
    while let [byte, tail @ ..] = rest {
        match pair_at(rest) {
            Some((high, low, behind)) => {
                let character = four_bytes(high, low);
                out.extend_from_slice(&character)?;
                rest = behind;
            }
            None => {
                out.push(*byte)?;
                rest = tail;
            }
        }
    }
    Ok(())
}
