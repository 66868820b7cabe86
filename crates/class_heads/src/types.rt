//! What a class declares.

ghost use Rattle.std.specs.Prelude.{◌≡◌, IfOk};

use aj_names::{InternalName, MemberName};
use class_file::AccessFlags;
use sqlite_items::Items;
use std::alloc::{AllocError, Global};

/// A field of a class (JVMS 4.5).
#[derive(Debug, Drop)]
pub struct FieldHead {
    pub name: MemberName,
    pub flags: AccessFlags,
    /// The field has the flag 0x1000 or a Synthetic attribute (JVMS 4.7.6).
    pub is_synthetic: bool,
    /// The field has a ConstantValue (JVMS 4.7.2).
    pub has_constant: bool,
}

impl FieldHead {
    /// An equal value in memory of its own.
    pub fn copy(&self) -> Result<FieldHead, AllocError>
        ensures { IfOk result (λ f. f ≡ self.now) }
    {
        Ok(FieldHead {
            name: self.name.copy()?,
            flags: self.flags,
            is_synthetic: self.is_synthetic,
            has_constant: self.has_constant,
        })
    }
}

/// A method of a class (JVMS 4.6).
#[derive(Debug, Drop)]
pub struct MethodHead {
    pub name: MemberName,
    pub flags: AccessFlags,
    /// The classes that the method declares to throw, in order (JVMS 4.7.4).
    pub exceptions: Items<InternalName>,
    /// The method has the flag 0x1000 or a Synthetic attribute (JVMS 4.7.6).
    pub is_synthetic: bool,
}

fn copy_names(alloc: Global, names: &[InternalName]) -> Result<Items<InternalName>, AllocError>
    ensures { IfOk result (λ copies. copies ≡ names.now) }
{
    let mut copies = Items::new(alloc);
    for name in names {
        copies.push(name.copy()?)?;
    }
    Ok(copies)
}

impl MethodHead {
    /// An equal value in memory of its own.
    pub fn copy(&self, alloc: Global) -> Result<MethodHead, AllocError>
        ensures { IfOk result (λ m. m ≡ self.now) }
    {
        Ok(MethodHead {
            name: self.name.copy()?,
            flags: self.flags,
            exceptions: copy_names(alloc, self.exceptions.as_slice())?,
            is_synthetic: self.is_synthetic,
        })
    }
}

/// What a class or interface declares, without its code (JVMS 4.1).
#[derive(Debug, Drop)]
pub struct ClassHead {
    pub name: InternalName,
    /// The major version of its class file.
    pub version: u16,
    pub flags: AccessFlags,
    /// None of `java/lang/Object` alone.
    pub super_class: Option<InternalName>,
    pub interfaces: Items<InternalName>,
    pub fields: Items<FieldHead>,
    pub methods: Items<MethodHead>,
}

fn copy_fields(alloc: Global, fields: &[FieldHead]) -> Result<Items<FieldHead>, AllocError>
    ensures { IfOk result (λ copies. copies ≡ fields.now) }
{
    let mut copies = Items::new(alloc);
    for field in fields {
        copies.push(field.copy()?)?;
    }
    Ok(copies)
}

fn copy_methods(alloc: Global, methods: &[MethodHead]) -> Result<Items<MethodHead>, AllocError>
    ensures { IfOk result (λ copies. copies ≡ methods.now) }
{
    let mut copies = Items::new(alloc);
    for method in methods {
        copies.push(method.copy(alloc)?)?;
    }
    Ok(copies)
}

fn copy_name(name: &Option<InternalName>) -> Result<Option<InternalName>, AllocError>
    ensures { IfOk result (λ n. n ≡ name.now) }
{
    Ok(match name {
        Some(name) => Some(name.copy()?),
        None => None,
    })
}

impl ClassHead {
    /// An equal value in memory of its own.
    pub fn copy(&self, alloc: Global) -> Result<ClassHead, AllocError>
        ensures { IfOk result (λ c. c ≡ self.now) }
    {
        Ok(ClassHead {
            name: self.name.copy()?,
            version: self.version,
            flags: self.flags,
            super_class: copy_name(&self.super_class)?,
            interfaces: copy_names(alloc, self.interfaces.as_slice())?,
            fields: copy_fields(alloc, self.fields.as_slice())?,
            methods: copy_methods(alloc, self.methods.as_slice())?,
        })
    }
}
