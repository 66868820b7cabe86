//! Types by their descriptors (JVMS 4.3.2).

ghost use Rattle.std.specs.Prelude.{◌≡◌};
ghost use Rattle.std.specs.Option.{option_copied};
ghost use Rattle.class_heads.specs.Hierarchy as rule;
ghost use Rattle.class_machine.specs.Descriptors as machine;
ghost use Rattle.class_machine.specs.Natives as natives;

use class_machine::kinds::Element;

// The bits of an int that a value of the type keeps.
fn low_bits(element: Element, n: i32) -> i32
    ensures { result ≡ machine.low_bits element n }
{
    let bits = n.cast_unsigned();
    match element {
        Element::Boolean => i32::from((bits % 2) as u8),
        Element::Byte => i32::from(((bits % 256) as u8).cast_signed()),
        Element::Char => i32::from((bits % 65536) as u16),
        Element::Short => i32::from(((bits % 65536) as u16).cast_signed()),
        _ => n,
    }
}

/// Whether the int is one of the type: in the type's range, and 0 or 1 for a boolean.
pub fn is_int_of(element: Element, n: i32) -> bool
    ensures { result ≡ natives.is_int_of element n }
{
    match element {
        Element::Long | Element::Float | Element::Double | Element::Reference => false,
        _ => low_bits(element, n) == n,
    }
}

// The name of a class in its descriptor, which ends at a semicolon.
fn before_semicolon(text: &[u8]) -> &[u8]
    ensures { result.now ≡ rule.before_semicolon text.now }
{
    for (i, byte) in text.iter().enumerate() {
        if *byte == b';' {
            return &text[..i];
        }
    }
    text
}

/// The class or array type that the descriptor names; none where its type is primitive.
pub fn class_in(descriptor: &[u8]) -> Option<&[u8]>
    ensures { option_copied result ≡ machine.class_in descriptor.now }
{
    match descriptor {
        [b'[', ..] => Some(descriptor),
        [b'L', name @ ..] => Some(before_semicolon(name)),
        _ => None,
    }
}
