//! Descriptors of fields and methods, read from the front of a text.

ghost use Rattle.std.specs.Prelude.{◌≡◌, IfOk};
ghost use Rattle.aj_names.specs.Reading.{Gives, base_in, primitives, base_at, field_at};
ghost use Rattle.aj_names.specs.Descriptors.{field_slots};
ghost use Rattle.aj_names.specs.Spelled.{base_of, type_of};
ghost use Rattle.std.specs.Option.{option_map};

use crate::names::class_name_at;
use crate::{Base, FieldType, InternalName};
use std::alloc::{AllocError, Global};

/// A base whose class name still stands in the text.
#[derive(Clone, Copy)]
pub(crate) enum SpelledBase<'a> {
    Boolean,
    Byte,
    Char,
    Short,
    Int,
    Long,
    Float,
    Double,
    Class(&'a [u8]),
}

/// A field's type whose class name still stands in the text.
#[derive(Clone, Copy)]
pub(crate) struct SpelledType<'a> {
    pub base: SpelledBase<'a>,
    pub dims: u8,
}

fn primitive(byte: u8) -> Option<SpelledBase<'static>>
    ensures { option_map base_of result ≡ base_in byte primitives }
{
    match byte {
        b'Z' => Some(SpelledBase::Boolean),
        b'B' => Some(SpelledBase::Byte),
        b'C' => Some(SpelledBase::Char),
        b'S' => Some(SpelledBase::Short),
        b'I' => Some(SpelledBase::Int),
        b'J' => Some(SpelledBase::Long),
        b'F' => Some(SpelledBase::Float),
        b'D' => Some(SpelledBase::Double),
        _ => None,
    }
}

// A base, and the bytes after it.
fn spelled_base_at(bytes: &[u8]) -> Result<(SpelledBase<'_>, &[u8]), usize>
    ensures { Gives (λ x. (base_of x.0, x.1.now)) result (base_at bytes.now) }
{
    let Some((first, after)) = bytes.split_first() else {
        return Err(0);
    };
    if let Some(base) = primitive(*first) {
        return Ok((base, after));
    }
    if *first != b'L' {
        return Err(bytes.len());
    }
    let (name, rest) = class_name_at(after)?;
    Ok((SpelledBase::Class(name), rest))
}

// A field's type, and the bytes after it.
pub(crate) fn spelled_type_at(bytes: &[u8]) -> Result<(SpelledType<'_>, &[u8]), usize>
    ensures { Gives (λ x. (type_of x.0, x.1.now)) result (field_at bytes.now) }
{
    let mut dims = 0u8;
    let mut rest = bytes;
    while let [b'[', after @ ..] = rest {
        if dims == u8::MAX {
            return Err(rest.len());
        }
        dims += 1;
        rest = after;
    }
    let (base, rest) = spelled_base_at(rest)?;
    Ok((SpelledType { base, dims }, rest))
}

impl SpelledBase<'_> {
    fn to_base(self, alloc: Global) -> Result<Base, AllocError>
        ensures { IfOk result (λ base. base ≡ base_of self.entry) }
    {
        Ok(match self {
            SpelledBase::Boolean => Base::Boolean,
            SpelledBase::Byte => Base::Byte,
            SpelledBase::Char => Base::Char,
            SpelledBase::Short => Base::Short,
            SpelledBase::Int => Base::Int,
            SpelledBase::Long => Base::Long,
            SpelledBase::Float => Base::Float,
            SpelledBase::Double => Base::Double,
            SpelledBase::Class(name) => Base::Class(InternalName::from_slice(alloc, name)?),
        })
    }
}

impl SpelledType<'_> {
    pub(crate) fn slots(self) -> u32
        ensures { result ≡ field_slots (type_of self.entry) }
    {
        match self.base {
            SpelledBase::Long | SpelledBase::Double if self.dims == 0 => 2,
            _ => 1,
        }
    }

    pub(crate) fn to_type(self, alloc: Global) -> Result<FieldType, AllocError>
        ensures { IfOk result (λ t. t ≡ type_of self.entry) }
    {
        Ok(FieldType {
            base: self.base.to_base(alloc)?,
            dims: self.dims,
        })
    }
}
