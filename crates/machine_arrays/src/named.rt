//! Array types, by their descriptors (JVMS 4.3.2, 4.4.1).

ghost use Rattle.std.specs.Prelude.{◌≡◌, ◌<◌, ◌||◌, ◌++◌, [], ◌∷◌, true, false, length, replicate, is_some, IfOk, IfSome};
ghost use Rattle.aj_names.specs.Descriptors.{base_spelling, field_spelling};
ghost use Rattle.class_file.specs.Code.{has_dimensions};
ghost use Rattle.class_file.specs.Text.{base_type, dimensions, is_ended, is_field_descriptor as is_descriptor, is_narrow_letter, is_wide_letter};
ghost use Rattle.class_heads.specs.Hierarchy as rule;
ghost use Rattle.machine_values.specs.Types.{type_name};
ghost use Rattle.machine_requests.specs.Telling.{is_array_type, is_plain_base};
ghost use Rattle.machine_arrays.specs.Named.{knows};

use aj_names::{Base, FieldType, InternalName};
use class_file::is_field_descriptor;
use class_world::World;
use std::alloc::{AllocError, Global};

// How many brackets a descriptor begins with, and what stands behind them.
fn brackets(descriptor: &[u8]) -> (usize, &[u8])
    ensures parts { descriptor.now ≡ replicate result.0 91 ++ result.1.now }
    ensures last { rule.is_array result.1.now ≡ false }
{
    let mut count = 0usize;
    let mut rest = descriptor;
    'counting: while let [b'[', behind @ ..] = rest {
        rest = behind;
        count += 1;
    }
    (count, rest)
}

// The primitive type of a letter.
fn primitive(letter: u8) -> Base
    requires { (is_wide_letter letter || is_narrow_letter letter) ≡ true }
    ensures spelled { base_spelling result ≡ letter ∷ [] }
    ensures plain { is_plain_base result ≡ true }
{
    match letter {
        b'B' => Base::Byte,
        b'C' => Base::Char,
        b'D' => Base::Double,
        b'F' => Base::Float,
        b'I' => Base::Int,
        b'J' => Base::Long,
        b'S' => Base::Short,
        b'Z' => Base::Boolean,
        _ => unreachable!(),
    }
}

// The type of a descriptor without brackets.
fn base_named(alloc: Global, text: &[u8]) -> Result<Base, AllocError>
    requires { is_ended (base_type text.now) ≡ true }
    ensures spelled { IfOk result (λ base. base_spelling base ≡ text.now) }
    ensures plain { IfOk result (λ base. is_plain_base base ≡ true) }
{
    match text {
        [b'L', class @ ..] => {
            let name = &class[..class.len() - 1];
            Ok(Base::Class(InternalName::from_slice(alloc, name)?))
        }
        [letter, ..] => Ok(primitive(*letter)),
        [] => unreachable!(),
    }
}

// The type of a descriptor.
fn type_of(alloc: Global, descriptor: &[u8]) -> Result<FieldType, AllocError>
    requires { is_descriptor descriptor.now ≡ true }
    ensures spelled { IfOk result (λ class. field_spelling class ≡ descriptor.now) }
    ensures plain { IfOk result (λ class. is_plain_base class.base ≡ true) }
    ensures dims { IfOk result (λ class. class.dims ≡ dimensions descriptor.now) }
{
    let (count, rest) = brackets(descriptor);
    let base = base_named(alloc, rest)?;
    Ok(FieldType {
        base,
        dims: count as u8,
    })
}

// Whether it is primitive or a class that is there.
fn is_known_base(world: &World, base: &Base) -> bool
    requires { is_plain_base base.now ≡ true }
    ensures { result ≡ rule.is_known world.now.heads (rule.type_of_descriptor (base_spelling base.now)) }
{
    match base {
        Base::Class(name) => world.class(name).is_some(),
        _ => true,
    }
}

/// The array type that a Class entry names by its descriptor, where the class of its elements is there
/// (JVMS 4.4.1, 5.4.3.1).
pub(crate) fn array_named(
    alloc: Global,
    world: &World,
    descriptor: &[u8],
) -> Result<Option<FieldType>, AllocError>
    requires { rule.is_array descriptor.now ≡ true }
    ensures known { IfOk result (λ found. is_some found ≡ knows world.now descriptor.now) }
    ensures named { IfOk result (λ found. IfSome found (λ class. type_name class ≡ descriptor.now)) }
    ensures array { IfOk result (λ found. IfSome found (λ class. is_array_type class ≡ true)) }
    ensures dims { IfOk result (λ found. IfSome found (λ class. class.dims ≡ dimensions descriptor.now)) }
{
    if !is_field_descriptor(descriptor) {
        return Ok(None);
    }
    let class = type_of(alloc, descriptor)?;
    if is_known_base(world, &class.base) {
        Ok(Some(class))
    } else {
        Ok(None)
    }
}

/// Whether an array of so many dimensions can be made of the type that a Class entry names: at least
/// one, and at most as many as the type has (JVMS 4.8.1, 6, `multianewarray`).
pub fn has_dimensions(named: &[u8], dims: u8) -> bool
    ensures { result ≡ has_dimensions dims named.now }
{
    let (count, _rest) = brackets(named);
    dims > 0 && usize::from(dims) <= count
}
