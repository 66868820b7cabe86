//! Entries of a pool and attributes of methods.

ghost use Rattle.std.specs.Prelude.{◌≡◌, ◌<◌, ◌++◌, IfOk, [], ◌∷◌, length};
ghost use Rattle.woven_calls.specs.Woven.{with_code, call_entries};

use aj_names::ByteString;
use class_file::{Attribute, CodeAttr, Content, PoolEntry};
use jp_model::FirstAspect;
use sqlite_items::Items;
use std::alloc::{AllocError, Global};

/// The name of the method that holds the advice's body.
pub(crate) const ADVICE_NAME: &[u8] = b"ajc$before$1";

/// The entry of a text (JVMS 4.4.7).
pub(crate) fn utf8(alloc: Global, text: &[u8]) -> Result<PoolEntry, AllocError>
    ensures { IfOk result (λ e. e ≡ PoolEntry.Utf8 text.now) }
{
    Ok(PoolEntry::Utf8(ByteString::from_slice(alloc, text)?))
}

/// A Code attribute without entries and attributes, alone (JVMS 4.7.3).
pub(crate) fn code_attribute(
    alloc: Global,
    name: u16,
    max_stack: u16,
    max_locals: u16,
    code: Vec<u8>,
) -> Result<Items<Attribute>, AllocError>
    ensures { IfOk result (λ attributes. attributes ≡ with_code name (record { max_stack = max_stack; max_locals = max_locals; code = code.items; entries = []; attributes = [] })) }
{
    let content = Content::Code(CodeAttr {
        max_stack,
        max_locals,
        code: Items::from_vec(code),
        entries: Items::new(alloc),
        attributes: Items::new(alloc),
    });
    let mut attributes = Items::new(alloc);
    attributes.push(Attribute { name, content })?;
    Ok(attributes)
}

/// The pool with the entries behind it for a call of the advice's method.
pub(crate) fn with_call_entries(
    alloc: Global,
    mut pool: Items<PoolEntry>,
    aspect: &FirstAspect,
) -> Result<Items<PoolEntry>, AllocError>
    requires { length pool < 10000 }
    ensures { IfOk result (λ extended. extended ≡ pool ++ call_entries pool aspect.now) }
{
    let first = pool.len() as u16 + 1;
    pool.push(utf8(alloc, aspect.name.as_slice())?)?;
    pool.push(PoolEntry::Class(first))?;
    pool.push(utf8(alloc, ADVICE_NAME)?)?;
    pool.push(utf8(alloc, b"()V")?)?;
    pool.push(PoolEntry::NameAndType(first + 2, first + 3))?;
    pool.push(PoolEntry::Methodref(first + 1, first + 4))?;
    Ok(pool)
}
