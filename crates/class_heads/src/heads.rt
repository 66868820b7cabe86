//! The head of a class file.

ghost use Rattle.std.specs.Prelude.{◌≡◌, map, IfOk};
ghost use Rattle.std.specs.List.{list_any, flat_map};
ghost use Rattle.class_file.specs.Pool.{super_name};
ghost use Rattle.class_heads.specs.Heads as rule;

use crate::types::{ClassHead, FieldHead, MethodHead};
use aj_names::{ByteString, InternalName, MemberName};
use class_file::{Attribute, ClassFile, Content, Member, PoolEntry, class_at, text_at};
use sqlite_items::Items;
use std::alloc::{AllocError, Global};

// The name of the class at an index, or the empty one.
fn class_name_at(alloc: Global, pool: &[PoolEntry], index: u16) -> Result<InternalName, AllocError>
    ensures { IfOk result (λ name. name ≡ rule.class_name_at pool.now index) }
{
    match class_at(pool, index) {
        Some(name) => InternalName::from_slice(alloc, name),
        None => Ok(InternalName::from_vec(Vec::new(alloc))),
    }
}

// The text at an index, or the empty one.
fn name_at(alloc: Global, pool: &[PoolEntry], index: u16) -> Result<ByteString, AllocError>
    ensures { IfOk result (λ name. name ≡ rule.name_at pool.now index) }
{
    match text_at(pool, index) {
        Some(text) => ByteString::from_slice(alloc, text),
        None => Ok(ByteString::from_vec(Vec::new(alloc))),
    }
}

fn class_names(
    alloc: Global,
    pool: &[PoolEntry],
    indices: &[u16],
) -> Result<Items<InternalName>, AllocError>
    ensures { IfOk result (λ names. names ≡ map (rule.class_name_at pool.now) indices.now) }
{
    let mut names = Items::new(alloc);
    for index in indices {
        names.push(class_name_at(alloc, pool, *index)?)?;
    }
    Ok(names)
}

fn member_name(alloc: Global, pool: &[PoolEntry], member: &Member) -> Result<MemberName, AllocError>
    ensures { IfOk result (λ name. name ≡ rule.member_name pool.now member.now) }
{
    Ok(MemberName {
        name: name_at(alloc, pool, member.name)?,
        descriptor: name_at(alloc, pool, member.descriptor)?,
    })
}

fn is_synthetic_attribute(attribute: &Attribute) -> bool
    ensures { result ≡ rule.is_synthetic attribute.now.content }
{
    matches!(attribute.content, Content::Synthetic)
}

fn is_constant(attribute: &Attribute) -> bool
    ensures { result ≡ rule.is_constant attribute.now.content }
{
    matches!(attribute.content, Content::ConstantValue(_))
}

fn has_synthetic(attributes: &[Attribute]) -> bool
    ensures { result ≡ list_any (λ a. rule.is_synthetic a.content) attributes.now }
{
    attributes
        .iter()
        .any(|attribute| is_synthetic_attribute(attribute))
}

fn is_synthetic(member: &Member) -> bool
    ensures { result ≡ rule.member_is_synthetic member.now }
{
    member.flags.0 & 0x1000 == 0x1000 || has_synthetic(member.attributes.as_slice())
}

fn has_constant(member: &Member) -> bool
    ensures { result ≡ list_any (λ a. rule.is_constant a.content) member.now.attributes }
{
    member
        .attributes
        .as_slice()
        .iter()
        .any(|attribute| is_constant(attribute))
}

fn field_head(alloc: Global, pool: &[PoolEntry], member: &Member) -> Result<FieldHead, AllocError>
    ensures { IfOk result (λ field. field ≡ rule.field_head pool.now member.now) }
{
    Ok(FieldHead {
        name: member_name(alloc, pool, member)?,
        flags: member.flags,
        is_synthetic: is_synthetic(member),
        has_constant: has_constant(member),
    })
}

fn thrown(
    alloc: Global,
    pool: &[PoolEntry],
    attribute: &Attribute,
) -> Result<Items<InternalName>, AllocError>
    ensures { IfOk result (λ names. names ≡ map (rule.class_name_at pool.now) (rule.thrown attribute.now.content)) }
{
    match &attribute.content {
        Content::Exceptions(classes) => class_names(alloc, pool, classes.as_slice()),
        _ => Ok(Items::new(alloc)),
    }
}

fn exceptions(
    alloc: Global,
    pool: &[PoolEntry],
    attributes: &[Attribute],
) -> Result<Items<InternalName>, AllocError>
    ensures { IfOk result (λ names. names ≡ map (rule.class_name_at pool.now) (flat_map (λ a. rule.thrown a.content) attributes.now)) }
{
    let mut names = Items::new(alloc);
    for attribute in attributes {
        names.append(thrown(alloc, pool, attribute)?)?;
    }
    Ok(names)
}

fn method_head(alloc: Global, pool: &[PoolEntry], member: &Member) -> Result<MethodHead, AllocError>
    ensures { IfOk result (λ method. method ≡ rule.method_head pool.now member.now) }
{
    Ok(MethodHead {
        name: member_name(alloc, pool, member)?,
        flags: member.flags,
        exceptions: exceptions(alloc, pool, member.attributes.as_slice())?,
        is_synthetic: is_synthetic(member),
    })
}

fn field_heads(
    alloc: Global,
    pool: &[PoolEntry],
    members: &[Member],
) -> Result<Items<FieldHead>, AllocError>
    ensures { IfOk result (λ fields. fields ≡ map (rule.field_head pool.now) members.now) }
{
    let mut fields = Items::new(alloc);
    for member in members {
        fields.push(field_head(alloc, pool, member)?)?;
    }
    Ok(fields)
}

fn method_heads(
    alloc: Global,
    pool: &[PoolEntry],
    members: &[Member],
) -> Result<Items<MethodHead>, AllocError>
    ensures { IfOk result (λ methods. methods ≡ map (rule.method_head pool.now) members.now) }
{
    let mut methods = Items::new(alloc);
    for member in members {
        methods.push(method_head(alloc, pool, member)?)?;
    }
    Ok(methods)
}

fn super_class(alloc: Global, class: &ClassFile) -> Result<Option<InternalName>, AllocError>
    ensures { IfOk result (λ name. name ≡ super_name class.now) }
{
    match class_at(class.pool.as_slice(), class.super_class) {
        Some(name) => Ok(Some(InternalName::from_slice(alloc, name)?)),
        None => Ok(None),
    }
}

/// What a class file declares, by names (JVMS 4.1), in time linear in the class file and the names.
/// A class of good form has a name at each index; where an index stands for none, the name is empty.
///
/// # Errors
///
/// Want of memory.
pub fn head_of(alloc: Global, class: &ClassFile) -> Result<ClassHead, AllocError>
    ensures { IfOk result (λ head. head ≡ rule.head_of class.now) }
{
    let pool = class.pool.as_slice();
    Ok(ClassHead {
        name: class_name_at(alloc, pool, class.this_class)?,
        version: class.major,
        flags: class.flags,
        super_class: super_class(alloc, class)?,
        interfaces: class_names(alloc, pool, class.interfaces.as_slice())?,
        fields: field_heads(alloc, pool, class.fields.as_slice())?,
        methods: method_heads(alloc, pool, class.methods.as_slice())?,
    })
}
