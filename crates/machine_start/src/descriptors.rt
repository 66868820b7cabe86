//! The types of a method's parameters, by its descriptor (JVMS 4.3.3).

ghost use Rattle.std.specs.Prelude.{◌≡◌, ◌≤◌, take, drop, length};
ghost use Rattle.machine_code.specs.TypeLengths.{class_length, type_length};

// How many bytes stand up to the first semicolon and with it, or all where there is none.
fn class_length(bytes: &[u8]) -> usize
    ensures length { result ≡ class_length bytes.now }
    ensures within { result ≤ length bytes.now }
{
    for (i, byte) in bytes.iter().enumerate() {
        if *byte == b';' {
            return i + 1;
        }
    }
    bytes.len()
}

/// How many bytes the first type has, or 0 where none stands before the closing bracket.
pub(crate) fn type_length(bytes: &[u8]) -> usize
    ensures length { result ≡ type_length bytes.now }
    ensures within { result ≤ length bytes.now }
{
    for (i, byte) in bytes.iter().enumerate() {
        match *byte {
            b'[' => {}
            b')' => return i,
            b'L' => return i + 1 + class_length(&bytes[i + 1..]),
            _ => return i + 1,
        }
    }
    bytes.len()
}

/// The first type.
pub(crate) fn first_type(bytes: &[u8]) -> &[u8]
    ensures { result.now ≡ take (type_length bytes.now) bytes.now }
{
    &bytes[..type_length(bytes)]
}

/// The bytes behind the first type.
pub(crate) fn behind_first(bytes: &[u8]) -> &[u8]
    ensures { result.now ≡ drop (type_length bytes.now) bytes.now }
{
    &bytes[type_length(bytes)..]
}

/// What stands behind the opening bracket.
pub(crate) fn parameters(descriptor: &[u8]) -> &[u8]
    ensures { result.now ≡ drop 1 descriptor.now }
{
    match descriptor {
        [_, parameters @ ..] => parameters,
        [] => descriptor,
    }
}
