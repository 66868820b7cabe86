//! The names of the files of classes.

ghost use Rattle.std.specs.Prelude.{◌≡◌, ◌+◌, ◌*◌, ◌-◌, ◌++◌, ◌<◌, ◌≤◌, length, IsTrue, IfOk, IfSome, OnOk};
ghost use Rattle.std.specs.Option.{option_map};
ghost use Rattle.std.specs.String.{string_bytes};
ghost use Rattle.class_file.specs.Pool.{this_name};
ghost use Rattle.class_file.specs.Sound.{is_some_that};
ghost use Rattle.class_file.specs.Text.{is_name_text, is_class_name};
ghost use Rattle.weave_plan.specs.Utf8.{pair_at};
ghost use Rattle.jp_model.specs.Headline.{IsWritten, output_name, utf8_of, four_bytes, is_surrogate};

use aj_outside::Name;
use class_file::{ClassFile, class_name};
use std::alloc::{AllocError, Global};

/// The name of a class's file: `folder/NAME.class`.
pub(crate) fn file_name(alloc: Global, folder: &str, class: &ClassFile) -> Result<Name, AllocError>
    requires { IsWritten class.now }
    ensures { IfOk result (λ name. name ≡ output_name folder.now class.now) }
{
    let mut name = String::from_str(alloc, folder)?;
    name.push_str("/")?;
    if let Some(own) = class_name(class) {
        push_name(alloc, &mut name, own)?;
    }
    name.push_str(".class")?;
    Ok(Name::from_string(name))
}

/// Puts a class's name behind a text.
fn push_name(alloc: Global, text: &mut String, name: &[u8]) -> Result<(), AllocError>
    requires { IsTrue (is_name_text name.now) }
    ensures { OnOk result (string_bytes text.new ≡ string_bytes text.old ++ utf8_of name.now) }
{
    let bytes = utf8_of(alloc, name)?;
    match str::from_utf8(bytes.as_slice()) {
        Ok(letters) => text.push_str(letters),
        Err(_) => unreachable!(),
    }
}

/// A name in UTF-8, from its modified UTF-8 (JVMS 4.4.7), where a character past U+FFFF is two
/// surrogates of three bytes each.
pub fn utf8_of(alloc: Global, name: &[u8]) -> Result<Vec<u8>, AllocError>
    ensures { IfOk result (λ text. text.items ≡ utf8_of name.now) }
{
    let mut text = Vec::new(alloc);
    let mut rest = name;
    while let [byte, tail @ ..] = rest {
        match pair_at(rest) {
            Some((high, low, behind)) => {
                let character = four_bytes(high, low);
                text.extend_from_slice(&character)?;
                rest = behind;
            }
            None => {
                text.push(*byte)?;
                rest = tail;
            }
        }
    }
    Ok(text)
}

/// The ten bits of each of two surrogates at the front, the high one first, and what follows them.
fn pair_at(bytes: &[u8]) -> Option<(u32, u32, &[u8])>
    ensures split { option_map (λ pair. (pair.0, pair.1, pair.2.now)) result ≡ pair_at bytes.now }
    ensures high { IfSome result (λ pair. pair.0 < 1024) }
    ensures low { IfSome result (λ pair. pair.1 < 1024) }
    ensures shorter { IfSome result (λ pair. length pair.2.now < length bytes.now) }
{
    match bytes {
        [first, second, third, fourth, fifth, sixth, rest @ ..]
            if is_surrogate(0xA0, *first, *second, *third)
                && is_surrogate(0xB0, *fourth, *fifth, *sixth) => {
            let high = bits(*second - 0xA0, *third - 0x80);
            let low = bits(*fifth - 0xB0, *sixth - 0x80);
            Some((high, low, rest))
        }
        _ => None,
    }
}

/// Whether three bytes are a surrogate whose second byte is one of the 16 from the least one on.
fn is_surrogate(least: u8, first: u8, second: u8, third: u8) -> bool
    requires { least < 240 }
    ensures { result ≡ is_surrogate least first second third }
{
    first == 0xED && (least..least + 16).contains(&second) && (0x80..0xC0).contains(&third)
}

/// The ten bits of a surrogate: four of its second byte and six of its third one.
fn bits(four: u8, six: u8) -> u32
    requires four { four < 16 }
    requires six { six < 64 }
    ensures bits { result ≡ four * 64 + six }
    ensures ten { result < 1024 }
{
    u32::from(four) * 64 + u32::from(six)
}

/// The four bytes of a character past U+FFFF, by the ten bits of each of its surrogates.
fn four_bytes(high: u32, low: u32) -> [u8; 4]
    requires high { high < 1024 }
    requires low { low < 1024 }
    ensures { result ≡ four_bytes high low }
{
    let n = 0x10000 + high * 1024 + low;
    [
        (0xF0 + n / 0x40000) as u8,
        (0x80 + n / 0x1000 % 64) as u8,
        (0x80 + n / 64 % 64) as u8,
        (0x80 + n % 64) as u8,
    ]
}
