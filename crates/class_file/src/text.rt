//! Texts of modified UTF-8, names and descriptors.

ghost use Rattle.std.specs.Prelude.{◌≡◌, ◌==◌, ◌<◌, ◌≤◌, if◌then◌else◌, length, true, position, IfSome, IfOk};
ghost use Rattle.std.specs.Option.{option_map};
ghost use Rattle.std.specs.Result.{result_map_both};
ghost use Rattle.std.specs.List.{list_all};
ghost use Rattle.class_file.specs.Text.{expected_after, is_utf8, pairing_after, is_paired, is_name_byte, is_not_slash, is_name_text, has_parts, is_class_name, is_member_name, class_type, base_type, dimensions, parameter, with_dimensions, field_type, is_field_descriptor, is_array_descriptor, is_result, parameters, is_method_descriptor, is_method_descriptor_with, is_internal_name};

/// Which bytes may come next in a text of modified UTF-8 (JVMS 4.4.7).
#[derive(Clone, Copy, Debug, PartialEq, Eq)]
pub(crate) enum Expected {
    /// The first byte of a unit, or the end.
    Unit,
    /// The last byte of a unit.
    Last,
    /// The second byte of U+0000, 80.
    Zero,
    /// The second byte of a unit from U+0800 to U+0FFF.
    Second,
    /// The last two bytes of a unit.
    Two,
    /// None: the text is wrong.
    Nothing,
}

/// Where a text of modified UTF-8 stands among pairs of surrogates.
#[derive(Clone, Copy, Debug, PartialEq, Eq)]
pub(crate) enum Pairing {
    /// In no pair.
    Outside,
    /// Behind a byte ED.
    First,
    /// Behind the second byte of a high surrogate.
    High,
    /// Behind a high surrogate.
    Between,
    /// Behind the first byte of what must be a low surrogate.
    Low,
    /// Behind a surrogate outside a pair.
    Lone,
}

fn expected_after(expected: Expected, b: u8) -> Expected
    ensures { result ≡ expected_after expected b }
{
    match expected {
        Expected::Unit => match b {
            0x01..0x80 => Expected::Unit,
            0xC0 => Expected::Zero,
            0xC2..0xE0 => Expected::Last,
            0xE0 => Expected::Second,
            0xE1..0xF0 => Expected::Two,
            _ => Expected::Nothing,
        },
        Expected::Last if (0x80..0xC0).contains(&b) => Expected::Unit,
        Expected::Zero if b == 0x80 => Expected::Unit,
        Expected::Second if (0xA0..0xC0).contains(&b) => Expected::Last,
        Expected::Two if (0x80..0xC0).contains(&b) => Expected::Last,
        _ => Expected::Nothing,
    }
}

/// Whether the bytes are modified UTF-8 (JVMS 4.4.7). A surrogate may stand alone.
pub fn is_utf8(bytes: &[u8]) -> bool
    ensures { result ≡ is_utf8 bytes.now }
{
    let mut expected = Expected::Unit;
    for b in bytes {
        expected = expected_after(expected, *b);
    }
    matches!(expected, Expected::Unit)
}

fn pairing_after(pairing: Pairing, b: u8) -> Pairing
    ensures { result ≡ pairing_after pairing b }
{
    match pairing {
        Pairing::Outside if b == 0xED => Pairing::First,
        Pairing::Outside => Pairing::Outside,
        Pairing::First if b < 0xA0 => Pairing::Outside,
        Pairing::First if b < 0xB0 => Pairing::High,
        Pairing::High => Pairing::Between,
        Pairing::Between if b == 0xED => Pairing::Low,
        Pairing::Low if b >= 0xB0 => Pairing::Outside,
        _ => Pairing::Lone,
    }
}

fn is_paired(bytes: &[u8]) -> bool
    ensures { result ≡ is_paired bytes.now }
{
    let mut pairing = Pairing::Outside;
    for b in bytes {
        pairing = pairing_after(pairing, *b);
    }
    matches!(pairing, Pairing::Outside)
}

fn is_name_byte(b: u8) -> bool
    ensures { result ≡ is_name_byte b }
{
    b != b'.' && b != b';' && b != b'[' && b != 0xC0
}

fn are_name_bytes(bytes: &[u8]) -> bool
    ensures { result ≡ list_all is_name_byte bytes.now }
{
    bytes.iter().all(|b| is_name_byte(*b))
}

fn is_name_text(bytes: &[u8]) -> bool
    ensures { result ≡ is_name_text bytes.now }
{
    is_utf8(bytes) && is_paired(bytes) && are_name_bytes(bytes)
}

fn has_parts(bytes: &[u8]) -> bool
    ensures { result ≡ has_parts true bytes.now }
{
    let mut fresh = true;
    for b in bytes {
        if *b != b'/' {
            fresh = false;
        } else if fresh {
            return false;
        } else {
            fresh = true;
        }
    }
    !fresh
}

/// Whether the bytes are the name of a class, its parts joined by `/` (JVMS 4.2).
pub fn is_class_name(bytes: &[u8]) -> bool
    ensures { result ≡ is_class_name bytes.now }
{
    is_name_text(bytes) && has_parts(bytes)
}

fn has_no_slash(bytes: &[u8]) -> bool
    ensures { result ≡ list_all is_not_slash bytes.now }
{
    bytes.iter().all(|b| *b != b'/')
}

/// Whether the bytes are the name of a field or a method.
pub fn is_member_name(bytes: &[u8]) -> bool
    ensures { result ≡ is_member_name bytes.now }
{
    is_class_name(bytes) && has_no_slash(bytes)
}

/// The place of the first `;`.
fn semicolon(bytes: &[u8]) -> Option<usize>
    ensures exact { result ≡ position (λ b. b == 59) bytes.now }
    ensures within { IfSome result (λ place. place < length bytes.now) }
{
    bytes.iter().position(|b| *b == b';')
}

/// What stands behind the `L` of a class: its slot and what follows the `;`.
fn class_type(bytes: &[u8]) -> Option<(u16, &[u8])>
    ensures { option_map (λ x. (x.0, x.1.now)) result ≡ class_type bytes.now }
{
    match semicolon(bytes) {
        None => None,
        Some(end) => {
            let (_, rest) = bytes.split_at(end + 1);
            if is_class_name(&bytes[..end]) {
                Some((1, rest))
            } else {
                None
            }
        }
    }
}

fn base_type(bytes: &[u8]) -> Option<(u16, &[u8])>
    ensures { option_map (λ x. (x.0, x.1.now)) result ≡ base_type bytes.now }
{
    match bytes {
        [b'L', rest @ ..] => class_type(rest),
        [b'J' | b'D', rest @ ..] => Some((2, rest)),
        [b'B' | b'C' | b'F' | b'I' | b'S' | b'Z', rest @ ..] => Some((1, rest)),
        _ => None,
    }
}

fn dimensions(bytes: &[u8]) -> usize
    ensures exact { result ≡ dimensions bytes.now }
    ensures within { result ≤ length bytes.now }
{
    bytes.iter().take_while(|b| **b == b'[').count()
}

/// The field type at the front: how many slots it takes and what follows it (JVMS 4.3.2).
fn field_type(bytes: &[u8]) -> Option<(u16, &[u8])>
    ensures { option_map (λ x. (x.0, x.1.now)) result ≡ field_type bytes.now }
{
    let count = dimensions(bytes);
    if count == 0 {
        return base_type(bytes);
    }
    if count > 255 {
        return None;
    }
    match base_type(&bytes[count..]) {
        None => None,
        Some((_, rest)) => Some((1, rest)),
    }
}

/// Whether the bytes are the descriptor of a field (JVMS 4.3.2).
pub fn is_field_descriptor(bytes: &[u8]) -> bool
    ensures { result ≡ is_field_descriptor bytes.now }
{
    match field_type(bytes) {
        Some((_, rest)) => rest.is_empty(),
        None => false,
    }
}

fn is_result(bytes: &[u8]) -> bool
    ensures { result ≡ is_result bytes.now }
{
    match bytes {
        [b'V'] => true,
        _ => is_field_descriptor(bytes),
    }
}

/// One parameter: the slots up to here and what follows it, or, where none stands, whether a
/// descriptor of a method ends here.
fn parameter(slots: u16, bytes: &[u8]) -> Result<(u16, &[u8]), bool>
    requires { slots ≤ 255 }
    ensures next { result_map_both (λ x. (x.0, x.1.now)) (λ answer. answer) result ≡ parameter slots bytes.now }
    ensures few { IfOk result (λ x. x.0 ≤ 255) }
{
    match bytes {
        [] => Err(false),
        [b')', tail @ ..] => Err(is_result(tail)),
        [_, ..] => match field_type(bytes) {
            Some((more, rest)) if more <= 255 - slots => Ok((slots + more, rest)),
            _ => Err(false),
        },
    }
}

fn parameters(before: u16, bytes: &[u8]) -> bool
    requires { before ≤ 255 }
    ensures { result ≡ parameters (length bytes.now) before bytes.now }
{
    let mut rest = bytes;
    let mut slots = before;
    for _ in 0..bytes.len() {
        match parameter(slots, rest) {
            Err(answer) => return answer,
            Ok((up_to, after)) => {
                slots = up_to;
                rest = after;
            }
        }
    }
    false
}

/// Whether the bytes are the descriptor of a method (JVMS 4.3.3), whose parameters take at most 255
/// slots, with one for the receiver where there is one.
pub fn is_method_descriptor_with(bytes: &[u8], receiver: bool) -> bool
    ensures { result ≡ is_method_descriptor_with (if receiver then 1 else 0) bytes.now }
{
    let before = if receiver { 1 } else { 0 };
    match bytes {
        [b'(', rest @ ..] => parameters(before, rest),
        _ => false,
    }
}

/// Whether the bytes are the descriptor of a method (JVMS 4.3.3), whose parameters take at most 255
/// slots.
pub fn is_method_descriptor(bytes: &[u8]) -> bool
    ensures { result ≡ is_method_descriptor bytes.now }
{
    is_method_descriptor_with(bytes, false)
}

/// Whether the bytes are the name of a class or an array descriptor, as a Class entry names it
/// (JVMS 4.4.1).
pub fn is_internal_name(bytes: &[u8]) -> bool
    ensures { result ≡ is_internal_name bytes.now }
{
    is_class_name(bytes) || (dimensions(bytes) > 0 && is_field_descriptor(bytes))
}
