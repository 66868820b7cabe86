//! What fields and elements hold.

ghost use Rattle.std.specs.Prelude.{◌≡◌};
ghost use Rattle.class_machine.specs.Descriptors.{low_bits};
ghost use Rattle.class_machine.specs.Answers.{serves};
ghost use Rattle.machine_requests.specs.Arrays.{base_element, type_element, array_element, kept_value};

use aj_names::{Base, FieldType};
use class_machine::kinds::Element;
use machine_values::Value;

fn base_element(base: &Base) -> Element
    ensures { result ≡ base_element base.now }
{
    match base {
        Base::Boolean => Element::Boolean,
        Base::Byte => Element::Byte,
        Base::Char => Element::Char,
        Base::Short => Element::Short,
        Base::Int => Element::Int,
        Base::Long => Element::Long,
        Base::Float => Element::Float,
        Base::Double => Element::Double,
        Base::Class(_) => Element::Reference,
    }
}

/// What a field of the type holds.
pub(crate) fn type_element(field: &FieldType) -> Element
    ensures { result ≡ type_element field.now }
{
    if field.dims > 0 {
        Element::Reference
    } else {
        base_element(&field.base)
    }
}

/// What an array of the type holds.
pub(crate) fn array_element(array: &FieldType) -> Element
    ensures { result ≡ array_element array.now }
{
    if array.dims > 1 {
        Element::Reference
    } else {
        base_element(&array.base)
    }
}

/// Whether an instruction serves arrays that hold such elements: those on bytes serve booleans too
/// (JVMS 6, `baload` and `bastore`).
pub(crate) fn serves(instruction: Element, held: Element) -> bool
    ensures { result ≡ serves instruction held }
{
    matches!(
        (instruction, held),
        (Element::Boolean, Element::Boolean)
            | (Element::Byte, Element::Byte | Element::Boolean)
            | (Element::Char, Element::Char)
            | (Element::Short, Element::Short)
            | (Element::Int, Element::Int)
            | (Element::Long, Element::Long)
            | (Element::Float, Element::Float)
            | (Element::Double, Element::Double)
            | (Element::Reference, Element::Reference)
    )
}

// The bits of an int that a field or an element keeps.
fn low_bits(element: Element, n: i32) -> i32
    ensures { result ≡ low_bits element n }
{
    let bits = n.cast_unsigned();
    match element {
        Element::Boolean => i32::from((bits % 2) as u8),
        Element::Byte => i32::from(((bits % 256) as u8).cast_signed()),
        Element::Char => i32::from((bits % 65536) as u16),
        Element::Short => i32::from(((bits % 65536) as u16).cast_signed()),
        _ => n,
    }
}

/// The value that a field or an element keeps (JVMS 6, `bastore`, `castore`, `putfield` and others).
pub(crate) fn kept_value(element: Element, value: Value) -> Value
    ensures { result ≡ kept_value element value }
{
    match value {
        Value::Int(n) => Value::Int(low_bits(element, n)),
        _ => value,
    }
}
