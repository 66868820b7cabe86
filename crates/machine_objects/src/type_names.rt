//! Types by their names in Class entries (JVMS 4.4.1).

ghost use Rattle.std.specs.Prelude.{◌≡◌, true, IfOk};
ghost use Rattle.class_heads.specs.Hierarchy as rule;
ghost use Rattle.class_machine.specs.Descriptors as machine;
ghost use Rattle.machine_values.specs.Types.{type_name};
ghost use Rattle.machine_requests.specs.Telling.{is_plain, is_plain_base, is_class_type, is_array_type};

use aj_names::{Base, FieldType, InternalName};
use std::alloc::{AllocError, Global};

fn is_array(name: &[u8]) -> bool
    ensures { result ≡ rule.is_array name.now }
{
    matches!(name, [b'[', ..])
}

fn is_plain(name: &[u8]) -> bool
    ensures { result ≡ is_plain name.now }
{
    name.iter().all(|b| *b != b';' && *b != b'[')
}

fn is_plain_base(base: &Base) -> bool
    ensures { result ≡ is_plain_base base.now }
{
    match base {
        Base::Class(name) => is_plain(name.as_slice()),
        _ => true,
    }
}

// The type of the descriptor of an array.
fn array_type(alloc: Global, descriptor: &[u8]) -> Result<FieldType, AllocError>
    ensures named { IfOk result (λ named. type_name named ≡ descriptor.now) }
    ensures array { IfOk result (λ named. is_array_type named ≡ true) }
{
    let Ok(named) = FieldType::read(alloc, descriptor) else {
        return Err(AllocError);
    };
    if named.dims == 0 {
        return Err(AllocError);
    }
    if is_plain_base(&named.base) {
        Ok(named)
    } else {
        Err(AllocError)
    }
}

// The type of objects of the class.
fn class_type(alloc: Global, class: &[u8]) -> Result<FieldType, AllocError>
    ensures named { IfOk result (λ named. type_name named ≡ class.now) }
    ensures class { IfOk result (λ named. is_class_type named ≡ true) }
{
    if !is_plain(class) {
        return Err(AllocError);
    }
    let name = InternalName::from_slice(alloc, class)?;
    Ok(FieldType {
        base: Base::Class(name),
        dims: 0,
    })
}

/// The class or array type of the name.
///
/// # Errors
/// Where there is no memory, and where there is no such type.
pub(crate) fn type_named(alloc: Global, class: &[u8]) -> Result<FieldType, AllocError>
    ensures named { IfOk result (λ named. type_name named ≡ class.now) }
    ensures class { IfOk result (λ named. is_class_type named ≡ true) }
{
    if is_array(class) {
        array_type(alloc, class)
    } else {
        class_type(alloc, class)
    }
}

// The descriptor of arrays of the class or array type.
fn array_descriptor(alloc: Global, class: &[u8]) -> Result<Vec<u8>, AllocError>
    ensures { IfOk result (λ text. text.items ≡ machine.array_of class.now) }
{
    let mut text = Vec::new(alloc);
    text.push(b'[')?;
    if is_array(class) {
        text.extend_from_slice(class)?;
        return Ok(text);
    }
    text.push(b'L')?;
    text.extend_from_slice(class)?;
    text.push(b';')?;
    Ok(text)
}

/// The type of arrays whose elements are of the class or array type.
///
/// # Errors
/// Where there is no memory, where there is no such type, and where it has 255 dimensions: arrays of it
/// have no descriptor (JVMS 4.3.2).
pub(crate) fn array_of(alloc: Global, class: &[u8]) -> Result<FieldType, AllocError>
    ensures named { IfOk result (λ named. type_name named ≡ machine.array_of class.now) }
    ensures array { IfOk result (λ named. is_array_type named ≡ true) }
{
    let descriptor = array_descriptor(alloc, class)?;
    array_type(alloc, descriptor.as_slice())
}
