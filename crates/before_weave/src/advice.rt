//! The class that stands for an aspect.

ghost use Rattle.std.specs.Prelude.{◌≡◌, IfOk, IsTrue, Some};
ghost use Rattle.class_file.specs.Pool.{this_name};
ghost use Rattle.jp_model.specs.AspectText.{is_first_aspect, aspect_of};
ghost use Rattle.jp_model.specs.Headline.{IsAspectClass, IsWritten};
ghost use Rattle.woven_calls.specs.Woven.{aspect_class, aspect_pool, advice_method, advice_code};

use crate::entries::{ADVICE_NAME, code_attribute, utf8};
use class_file::{AccessFlags, ClassFile, Member, PoolEntry};
use jp_model::FirstAspect;
use sqlite_items::Items;
use std::alloc::{AllocError, Global};

/// getstatic of System.out, ldc of the text, invokevirtual of println, return (JVMS 6.4).
const ADVICE_CODE: &[u8] = &[178, 0, 13, 18, 15, 182, 0, 21, 177];

/// The pool of the aspect's class.
fn aspect_pool(alloc: Global, aspect: &FirstAspect) -> Result<Vec<PoolEntry>, AllocError>
    ensures { IfOk result (λ pool. pool.items ≡ aspect_pool aspect.now) }
{
    let pool = vec![in alloc;
        utf8(alloc, aspect.name.as_slice())?,
        PoolEntry::Class(1),
        utf8(alloc, b"java/lang/Object")?,
        PoolEntry::Class(3),
        utf8(alloc, ADVICE_NAME)?,
        utf8(alloc, b"()V")?,
        utf8(alloc, b"Code")?,
        utf8(alloc, b"java/lang/System")?,
        PoolEntry::Class(8),
        utf8(alloc, b"out")?,
        utf8(alloc, b"Ljava/io/PrintStream;")?,
        PoolEntry::NameAndType(10, 11),
        PoolEntry::Fieldref(9, 12),
        utf8(alloc, aspect.text.as_slice())?,
        PoolEntry::String(14),
        utf8(alloc, b"java/io/PrintStream")?,
        PoolEntry::Class(16),
        utf8(alloc, b"println")?,
        utf8(alloc, b"(Ljava/lang/String;)V")?,
        PoolEntry::NameAndType(18, 19),
        PoolEntry::Methodref(17, 20),
    ]?;
    Ok(pool)
}

/// The method that holds the advice's body.
fn advice_method(alloc: Global) -> Result<Member, AllocError>
    ensures { IfOk result (λ method. method ≡ advice_method) }
{
    let code = Vec::from_slice(alloc, ADVICE_CODE)?;
    let attributes = code_attribute(alloc, 7, 2, 0, code)?;
    Ok(Member {
        flags: AccessFlags(9),
        name: 5,
        descriptor: 6,
        attributes,
    })
}

/// The class that stands for an aspect, from its parts.
fn made_class(alloc: Global, aspect: &FirstAspect) -> Result<ClassFile, AllocError>
    ensures { IfOk result (λ w. w ≡ aspect_class aspect.now) }
{
    let pool = aspect_pool(alloc, aspect)?;
    let mut methods = Items::new(alloc);
    methods.push(advice_method(alloc)?)?;
    Ok(ClassFile {
        minor: 0,
        major: 46,
        pool: Items::from_vec(pool),
        flags: AccessFlags(33),
        this_class: 2,
        super_class: 4,
        interfaces: Items::new(alloc),
        fields: Items::new(alloc),
        methods,
        attributes: Items::new(alloc),
    })
}

/// The class that stands for an aspect: its one method, public and static, prints the advice's line.
pub fn aspect_class(alloc: Global, aspect: &FirstAspect) -> Result<ClassFile, AllocError>
    requires { IsTrue (is_first_aspect aspect.now) }
    ensures value { IfOk result (λ w. w ≡ aspect_class aspect.now) }
    ensures written { IfOk result (λ w. IsWritten w) }
    ensures declared { IfOk result (λ w. IsAspectClass (aspect_of aspect.now) w) }
    ensures named { IfOk result (λ w. this_name w ≡ Some aspect.now.name) }
{
    let class = made_class(alloc, aspect)?;
    Ok(class)
}
