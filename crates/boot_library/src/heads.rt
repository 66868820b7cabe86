//! The classes of the library as heads.

ghost use Rattle.std.specs.Prelude.{◌≡◌, List, ◌++◌, map, IfOk, OnOk, false};
ghost use Rattle.std.specs.Option.{option_copied};
ghost use Rattle.std.specs.List.{flat_map, Contains};
ghost use Rattle.class_heads.specs.declared.types.ClassHead.{ClassHead};
ghost use Rattle.class_heads.specs.Faults.{IsLibrary, has_wrong_super};
ghost use Rattle.boot_library.specs.Heads.{member, class_flags, field_head, method_flags, method_head, class_head, library_heads};
ghost use Rattle.boot_library.specs.Rows.{kind_of, method_of, methods_of, field_of, fields_of, class_of, classes_of, exception_of, exceptions_of};

use crate::sections::{constructors, exceptions, sections};
use crate::table::{ClassKind, ClassRow, ExceptionRow, FieldRow, MethodRow};
use aj_names::{ByteString, InternalName, MemberName};
use class_file::AccessFlags;
use class_heads::{ClassHead, FieldHead, MethodHead};
use sqlite_items::Items;
use std::alloc::{AllocError, Global};

/// The major version of each class of the library (JVMS 4.1).
const VERSION: u16 = 46;

const PUBLIC_FINAL: AccessFlags = AccessFlags(AccessFlags::PUBLIC.0 | AccessFlags::FINAL.0);

const PUBLIC_INTERFACE: AccessFlags = AccessFlags(
    AccessFlags::PUBLIC.0 | AccessFlags::INTERFACE.0 | AccessFlags::ABSTRACT.0,
);

const PUBLIC_STATIC: AccessFlags = AccessFlags(AccessFlags::PUBLIC.0 | AccessFlags::STATIC.0);

const STATIC_FINAL: AccessFlags = AccessFlags(PUBLIC_STATIC.0 | AccessFlags::FINAL.0);

const STATIC_NATIVE: AccessFlags = AccessFlags(PUBLIC_STATIC.0 | AccessFlags::NATIVE.0);

fn member(alloc: Global, name: &str, descriptor: &str) -> Result<MemberName, AllocError>
    ensures { IfOk result (λ m. m ≡ member name.now descriptor.now) }
{
    let name = ByteString::from_slice(alloc, name.as_bytes())?;
    let descriptor = ByteString::from_slice(alloc, descriptor.as_bytes())?;
    Ok(MemberName { name, descriptor })
}

// The name of the superclass, if there is one.
fn super_class(
    alloc: Global,
    name: Option<&'static str>,
) -> Result<Option<InternalName>, AllocError>
    ensures { IfOk result (λ owned. owned ≡ option_copied name.entry) }
{
    Ok(match name {
        Some(name) => Some(InternalName::from_slice(alloc, name.as_bytes())?),
        None => None,
    })
}

impl ClassKind {
    fn flags(self) -> AccessFlags
        ensures { result ≡ class_flags (kind_of self) }
    {
        match self {
            ClassKind::Class => AccessFlags::PUBLIC,
            ClassKind::Final => PUBLIC_FINAL,
            ClassKind::Interface => PUBLIC_INTERFACE,
        }
    }
}

impl FieldRow {
    fn head(&self, alloc: Global) -> Result<FieldHead, AllocError>
        ensures { IfOk result (λ head. head ≡ field_head (field_of self.now)) }
    {
        Ok(FieldHead {
            name: member(alloc, self.0, self.1)?,
            flags: STATIC_FINAL,
            is_synthetic: false,
            has_constant: false,
        })
    }
}

impl MethodRow {
    fn flags(&self) -> AccessFlags
        ensures { result ≡ method_flags (method_of self.now) }
    {
        match self {
            MethodRow::Instance(..) => AccessFlags::PUBLIC,
            MethodRow::Static(..) => PUBLIC_STATIC,
            MethodRow::Native(..) => STATIC_NATIVE,
        }
    }

    fn head(&self, alloc: Global) -> Result<MethodHead, AllocError>
        ensures { IfOk result (λ head. head ≡ method_head (method_of self.now)) }
    {
        Ok(MethodHead {
            name: member(alloc, self.name(), self.descriptor())?,
            flags: self.flags(),
            exceptions: Items::new(alloc),
            is_synthetic: false,
        })
    }
}

fn field_heads(alloc: Global, rows: &[FieldRow]) -> Result<Items<FieldHead>, AllocError>
    ensures { IfOk result (λ heads. heads ≡ map field_head (fields_of rows.now)) }
{
    let mut heads = Items::new(alloc);
    for row in rows {
        heads.push(row.head(alloc)?)?;
    }
    Ok(heads)
}

fn method_heads(alloc: Global, rows: &[MethodRow]) -> Result<Items<MethodHead>, AllocError>
    ensures { IfOk result (λ heads. heads ≡ map method_head (methods_of rows.now)) }
{
    let mut heads = Items::new(alloc);
    for row in rows {
        heads.push(row.head(alloc)?)?;
    }
    Ok(heads)
}

impl ClassRow {
    fn head(&self, alloc: Global) -> Result<ClassHead, AllocError>
        ensures { IfOk result (λ head. head ≡ class_head (class_of self.now)) }
    {
        Ok(ClassHead {
            name: InternalName::from_slice(alloc, self.name.as_bytes())?,
            version: VERSION,
            flags: self.kind.flags(),
            super_class: super_class(alloc, self.super_class)?,
            interfaces: Items::new(alloc),
            fields: field_heads(alloc, self.fields)?,
            methods: method_heads(alloc, self.methods)?,
        })
    }
}

impl ExceptionRow {
    // The class of exceptions with its members.
    fn class(&self) -> ClassRow
        ensures { class_of result ≡ exception_of self.now }
    {
        ClassRow {
            name: self.0,
            kind: ClassKind::Class,
            super_class: Some(self.1),
            fields: &[],
            methods: constructors(),
        }
    }
}

fn push_classes(
    alloc: Global,
    rows: &[ClassRow],
    heads: &mut Vec<ClassHead>,
) -> Result<(), AllocError>
    ensures { OnOk result (heads.new.items ≡ heads.old.items ++ map class_head (classes_of rows.now)) }
{
    for row in rows {
        heads.push(row.head(alloc)?)?;
    }
    Ok(())
}

fn push_exceptions(
    alloc: Global,
    rows: &[ExceptionRow],
    heads: &mut Vec<ClassHead>,
) -> Result<(), AllocError>
    ensures { OnOk result (heads.new.items ≡ heads.old.items ++ map class_head (exceptions_of rows.now)) }
{
    for row in rows {
        heads.push(row.class().head(alloc)?)?;
    }
    Ok(())
}

fn section_heads(
    alloc: Global,
    sections: &[&'static [ClassRow]],
) -> Result<Vec<ClassHead>, AllocError>
    ensures { IfOk result (λ heads. heads.items ≡ map class_head (flat_map (λ rows. classes_of rows.now) sections.now)) }
{
    let mut heads = Vec::new(alloc);
    for rows in sections {
        push_classes(alloc, rows, &mut heads)?;
    }
    Ok(heads)
}

/// The classes and interfaces that are there without being given: the part of the API of Java 5 that
/// programs here may use. No two have one name, each superclass is one of them, and none is final or
/// an interface. Only memory can be wanting.
pub fn library_heads(alloc: Global) -> Result<Vec<ClassHead>, AllocError>
    ensures exact { IfOk result (λ heads. heads.items ≡ library_heads) }
    ensures library { IfOk result (λ heads. IsLibrary heads.items) }
    ensures fitting { IfOk result (λ heads. (c : ClassHead) → Contains heads.items c → has_wrong_super heads.items c ≡ false) }
{
    let mut heads = section_heads(alloc, &sections())?;
    push_exceptions(alloc, exceptions(), &mut heads)?;
    Ok(heads)
}
