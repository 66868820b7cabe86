//! The types that a method's descriptor names, and the kinds of their values (JVMS 4.3.3).

ghost use Rattle.std.specs.Prelude.{◌≡◌, ◌≤◌, length, drop, slice_get};
ghost use Rattle.std.specs.Option.{option_map, option_copied};
ghost use Rattle.class_machine.specs.Descriptors as machine;
ghost use Rattle.machine_code.specs.TypeLengths.{class_length, type_length};

use class_machine::kinds::Kind;

/// The kind of an operand that holds a value of a type, by the type's descriptor (JVMS 3.11.1).
pub fn kind_in(descriptor: &[u8]) -> Kind
    ensures { result ≡ machine.kind_in descriptor.now }
{
    match descriptor {
        [b'J', ..] => Kind::Long,
        [b'F', ..] => Kind::Float,
        [b'D', ..] => Kind::Double,
        [b'Z' | b'B' | b'C' | b'S' | b'I', ..] => Kind::Int,
        _ => Kind::Reference,
    }
}

// How many bytes stand up to the first semicolon and with it, or all where there is none.
fn class_length(bytes: &[u8]) -> usize
    ensures length { result ≡ class_length bytes.now }
    ensures within { result ≤ length bytes.now }
{
    for (i, byte) in bytes.iter().enumerate() {
        if *byte == b';' {
            return i + 1;
        }
    }
    bytes.len()
}

// How many bytes the first type has, or 0 where none stands before the closing bracket.
fn type_length(bytes: &[u8]) -> usize
    ensures length { result ≡ type_length bytes.now }
    ensures within { result ≤ length bytes.now }
{
    for (i, byte) in bytes.iter().enumerate() {
        match *byte {
            b'[' => {}
            b')' => return i,
            b'L' => return i + 1 + class_length(&bytes[i + 1..]),
            _ => return i + 1,
        }
    }
    bytes.len()
}

// The bytes behind the first type.
fn behind_first(bytes: &[u8]) -> &[u8]
    ensures { result.now ≡ drop (type_length bytes.now) bytes.now }
{
    &bytes[type_length(bytes)..]
}

// What stands behind the opening bracket.
fn parameters(descriptor: &[u8]) -> &[u8]
    ensures { result.now ≡ drop 1 descriptor.now }
{
    match descriptor {
        [_, parameters @ ..] => parameters,
        [] => descriptor,
    }
}

/// How many parameters a method has, in time linear in its descriptor (JVMS 4.3.3).
pub fn parameter_count(descriptor: &[u8]) -> usize
    ensures { result ≡ length (machine.parameters_in descriptor.now) }
{
    let mut rest = parameters(descriptor);
    let mut count = 0;
    'types: while type_length(rest) > 0 {
        rest = behind_first(rest);
        count += 1;
    }
    count
}

/// The kind of parameter number `i`, from 0, if there are more than so many (JVMS 4.3.3).
pub fn parameter_kind(descriptor: &[u8], i: usize) -> Option<Kind>
    ensures { result ≡ option_map machine.kind_in (slice_get (machine.parameters_in descriptor.now) i) }
{
    let mut rest = parameters(descriptor);
    for _turn in 0..i {
        rest = behind_first(rest);
    }
    if type_length(rest) == 0 {
        None
    } else {
        Some(kind_in(rest))
    }
}

/// The descriptor of a method's result, or `None` where it is void (JVMS 4.3.3).
pub fn result_type(descriptor: &[u8]) -> Option<&[u8]>
    ensures { option_copied result ≡ machine.result_in descriptor.now }
{
    let mut inside = false;
    for (i, byte) in descriptor.iter().enumerate() {
        if inside {
            inside = *byte != b';';
        } else if *byte == b')' {
            return unless_void(&descriptor[i + 1..]);
        } else {
            inside = *byte == b'L';
        }
    }
    None
}

fn unless_void(text: &[u8]) -> Option<&[u8]>
    ensures { option_copied result ≡ machine.unless_void text.now }
{
    match text {
        [] | [b'V', ..] => None,
        _ => Some(text),
    }
}
