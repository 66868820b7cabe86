//! Reading a class file.

ghost use Rattle.std.specs.Prelude.{◌≡◌, IfOk, IsTrue, Ok};
ghost use Rattle.class_file.specs.Spelling.{spelling};
ghost use Rattle.class_file.specs.WellFormed.{is_well_formed};
ghost use Rattle.class_format.specs.Gives.{Gives, GivesBy};
ghost use Rattle.class_format.specs.Reading.{version, names, parts, class, reading};

use crate::attributes::attributes_at;
use crate::fault::ClassFault;
use crate::kinds::Place;
use crate::known::{Known, Role, index_at};
use crate::members::{fields_at, methods_at};
use crate::numbers::{u2_at, u4_at};
use crate::pool::{Pool, pool_at};
use crate::scope::Scope;
use crate::tables::classes_at;
use class_file::{AccessFlags, Attribute, ClassFile, Member};
use sqlite_items::Items;
use std::alloc::Global;

/// The number with which each class file begins (JVMS 4.1).
const MAGIC: u32 = 0xCAFE_BABE;

/// Flags, class, superclass and interfaces.
#[derive(Drop)]
struct Names {
    flags: u16,
    this_class: u16,
    super_class: u16,
    interfaces: Items<u16>,
}

/// What stands behind the interfaces.
#[derive(Drop)]
struct Parts {
    fields: Items<Member>,
    methods: Items<Member>,
    attributes: Items<Attribute>,
}

/// The minor and the major version, of Java 1.2 to 5.
#[tactic(auto, unfolding(crate::specs::Reading::version))]
fn version_at(scope: Scope, bytes: &[u8]) -> Result<((u16, u16), &[u8]), ClassFault>
    ensures { GivesBy (λ x. (x.0, x.1.now)) result (version scope bytes.now) }
{
    let (magic, rest) = u4_at(scope, bytes)?;
    if magic != MAGIC {
        return Err(ClassFault::Magic);
    }
    let (minor, rest) = u2_at(scope, rest)?;
    let (major, rest) = u2_at(scope, rest)?;
    if !(46..50).contains(&major) {
        return Err(ClassFault::Version(major));
    }
    Ok(((minor, major), rest))
}

#[tactic(auto, unfolding(crate::specs::Reading::names))]
fn names_at<'a>(
    alloc: Global,
    known: &Known<'_>,
    scope: Scope,
    bytes: &'a [u8],
) -> Result<(Names, &'a [u8]), ClassFault>
    ensures { GivesBy (λ x. ((x.0.flags, (x.0.this_class, (x.0.super_class, x.0.interfaces))), x.1.now)) result (names known.now.pool.now scope bytes.now) }
{
    let (flags, rest) = u2_at(scope, bytes)?;
    let (this_class, rest) = index_at(known, Role::ThisClass, scope, rest)?;
    let (super_class, rest) = index_at(known, Role::Class, scope, rest)?;
    let (interfaces, rest) = classes_at(alloc, known, scope, rest)?;
    let names = Names {
        flags,
        this_class,
        super_class,
        interfaces,
    };
    Ok((names, rest))
}

#[tactic(auto, unfolding(crate::specs::Reading::parts))]
fn parts_at<'a>(
    alloc: Global,
    known: &Known<'_>,
    scope: Scope,
    bytes: &'a [u8],
) -> Result<(Parts, &'a [u8]), ClassFault>
    ensures { GivesBy (λ x. ((x.0.fields, (x.0.methods, x.0.attributes)), x.1.now)) result (parts known.now.major known.now.pool.now scope bytes.now) }
{
    let (fields, rest) = fields_at(alloc, known, scope, bytes)?;
    let (methods, rest) = methods_at(alloc, known, scope, rest)?;
    let (attributes, rest) = attributes_at(alloc, known, Place::Class, scope, rest)?;
    let parts = Parts {
        fields,
        methods,
        attributes,
    };
    Ok((parts, rest))
}

#[tactic(auto, unfolding(crate::specs::Reading::class))]
fn class_at(alloc: Global, scope: Scope, bytes: &[u8]) -> Result<(ClassFile, &[u8]), ClassFault>
    ensures { GivesBy (λ x. (x.0, x.1.now)) result (class scope bytes.now) }
{
    let ((minor, major), rest) = version_at(scope, bytes)?;
    let (pool, rest) = pool_at(alloc, scope, rest)?;
    let known = Known {
        major,
        pool: pool.entries.as_slice(),
        forms: &pool.forms,
    };
    let (names, rest) = names_at(alloc, &known, scope, rest)?;
    let (parts, rest) = parts_at(alloc, &known, scope, rest)?;
    let Pool { entries, forms: _ } = pool;
    let class = ClassFile {
        minor,
        major,
        pool: entries,
        flags: AccessFlags(names.flags),
        this_class: names.this_class,
        super_class: names.super_class,
        interfaces: names.interfaces,
        fields: parts.fields,
        methods: parts.methods,
        attributes: parts.attributes,
    };
    Ok((class, rest))
}

#[tactic(auto, unfolding(crate::specs::Reading::reading))]
fn whole_class(alloc: Global, bytes: &[u8]) -> Result<ClassFile, ClassFault>
    ensures { Gives result (reading bytes.now) }
{
    let size = bytes.len();
    let scope = Scope {
        cut: ClassFault::Truncated(size),
        end: size,
    };
    let (class, rest) = class_at(alloc, scope, bytes)?;
    if !rest.is_empty() {
        return Err(ClassFault::Trailing(size.saturating_sub(rest.len())));
    }
    Ok(class)
}

/// The class that the bytes spell (JVMS 4.1).
///
/// # Errors
/// The first fault that reading in byte order meets, and `Memory`.
pub fn read_class(alloc: Global, bytes: &[u8]) -> Result<ClassFile, ClassFault>
    // What is read is well-formed and spelled so.
    ensures found { IfOk result (λ c. IsTrue (is_well_formed c) × (bytes.now ≡ spelling c)) }
    // A well-formed class that is spelled so is read, unless memory runs out.
    ensures only { (c : ClassFile) → IsTrue (is_well_formed c) → bytes.now ≡ spelling c → Gives result (Ok c) }
    // Each fault but want of memory is the first in byte order.
    ensures exact { Gives result (reading bytes.now) }
{
    whole_class(alloc, bytes)
}
