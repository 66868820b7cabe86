//! Field types, method types and names of members.

ghost use Rattle.std.specs.Prelude.{◌≡◌, IfOk};
ghost use Rattle.aj_names.specs.declared.types.NameFault.TheVariants as faults;

use crate::{ByteString, InternalName};
use sqlite_items::Items;
use std::alloc::{AllocError, AllocFailed, Global};
use thiserror::Error;

/// Why a text is no descriptor, or no modified UTF-8. An offset counts bytes from the text's start,
/// and stands at 4294967295 where there are more.
#[derive(Clone, Copy, Debug, PartialEq, Eq, Error)]
pub enum NameFault {
    /// The first byte with which no descriptor begins, or the text's length.
    #[error("no descriptor, from byte {0} on")]
    BadDescriptor(u32),
    /// The first byte of the first wrong sequence.
    #[error("no modified UTF-8 at byte {0}")]
    BadUtf8(u32),
    #[error("out of memory")]
    Memory,
}

impl From<AllocError> for NameFault {
    ghost from_gives = { λ _ fault. fault ≡ faults.Memory };

    fn from(_: AllocError) -> NameFault {
        NameFault::Memory
    }
}

impl<T: Drop> From<AllocFailed<T>> for NameFault {
    ghost from_gives = { λ _ fault. fault ≡ faults.Memory };

    fn from(_: AllocFailed<T>) -> NameFault {
        NameFault::Memory
    }
}

/// A type that isn't an array: primitive, or a class by its name (JVMS 4.3.2).
#[derive(Debug, Drop, PartialEq, Eq, PartialOrd, Ord, Hash)]
pub enum Base {
    Boolean,
    Byte,
    Char,
    Short,
    Int,
    Long,
    Float,
    Double,
    Class(InternalName),
}

impl Base {
    /// An equal value in memory of its own.
    pub fn copy(&self) -> Result<Base, AllocError>
        ensures { IfOk result (λ b. b ≡ self.now) }
    {
        Ok(match self {
            Base::Boolean => Base::Boolean,
            Base::Byte => Base::Byte,
            Base::Char => Base::Char,
            Base::Short => Base::Short,
            Base::Int => Base::Int,
            Base::Long => Base::Long,
            Base::Float => Base::Float,
            Base::Double => Base::Double,
            Base::Class(name) => Base::Class(name.copy()?),
        })
    }
}

/// A field's type: `dims` array dimensions over a base (JVMS 4.3.2).
#[derive(Debug, Drop, PartialEq, Eq, PartialOrd, Ord, Hash)]
pub struct FieldType {
    pub base: Base,
    pub dims: u8,
}

impl FieldType {
    /// An equal value in memory of its own.
    pub fn copy(&self) -> Result<FieldType, AllocError>
        ensures { IfOk result (λ t. t ≡ self.now) }
    {
        Ok(FieldType {
            base: self.base.copy()?,
            dims: self.dims,
        })
    }
}

/// A method's parameters and its result, `None` for void (JVMS 4.3.3).
#[derive(Debug, Drop)]
pub struct MethodType {
    pub params: Items<FieldType>,
    pub result: Option<FieldType>,
}

/// A member's name and descriptor, as a NameAndType entry has them (JVMS 4.4.6).
#[derive(Debug, Drop, PartialEq, Eq, PartialOrd, Ord, Hash)]
pub struct MemberName {
    pub name: ByteString,
    pub descriptor: ByteString,
}

impl MemberName {
    /// An equal value in memory of its own.
    pub fn copy(&self) -> Result<MemberName, AllocError>
        ensures { IfOk result (λ n. n ≡ self.now) }
    {
        Ok(MemberName {
            name: self.name.copy()?,
            descriptor: self.descriptor.copy()?,
        })
    }
}

/// A field by its class, name and descriptor, as a Fieldref entry names it (JVMS 4.4.2).
#[derive(Debug, Drop, PartialEq, Eq, PartialOrd, Ord, Hash)]
pub struct FieldName {
    pub class: InternalName,
    pub name: ByteString,
    pub descriptor: ByteString,
}

impl FieldName {
    /// An equal value in memory of its own.
    pub fn copy(&self) -> Result<FieldName, AllocError>
        ensures { IfOk result (λ n. n ≡ self.now) }
    {
        Ok(FieldName {
            class: self.class.copy()?,
            name: self.name.copy()?,
            descriptor: self.descriptor.copy()?,
        })
    }
}

/// A method by its class, name and descriptor; `interface` where an InterfaceMethodref entry names
/// it (JVMS 4.4.2).
#[derive(Debug, Drop, PartialEq, Eq, PartialOrd, Ord, Hash)]
pub struct MethodName {
    pub class: InternalName,
    pub name: ByteString,
    pub descriptor: ByteString,
    pub interface: bool,
}

impl MethodName {
    /// An equal value in memory of its own.
    pub fn copy(&self) -> Result<MethodName, AllocError>
        ensures { IfOk result (λ n. n ≡ self.now) }
    {
        Ok(MethodName {
            class: self.class.copy()?,
            name: self.name.copy()?,
            descriptor: self.descriptor.copy()?,
            interface: self.interface,
        })
    }
}

fn copy_types(alloc: Global, types: &[FieldType]) -> Result<Items<FieldType>, AllocError>
    ensures { IfOk result (λ ts. ts ≡ types.now) }
{
    let mut copies = Items::new(alloc);
    for t in types {
        copies.push(t.copy()?)?;
    }
    Ok(copies)
}

impl MethodType {
    /// An equal value in memory of its own.
    pub fn copy(&self, alloc: Global) -> Result<MethodType, AllocError>
        ensures { IfOk result (λ m. m ≡ self.now) }
    {
        let params = copy_types(alloc, self.params.as_slice())?;
        let returned = match &self.result {
            None => None,
            Some(t) => Some(t.copy()?),
        };
        Ok(MethodType {
            params,
            result: returned,
        })
    }
}
