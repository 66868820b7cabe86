//! How many bytes an attribute has.

ghost use Rattle.std.specs.Prelude.{◌≡◌, ◌+◌, ◌*◌, IfOk};
ghost use Rattle.class_listing.specs.Lengths as rule;

use class_file::{CodeAttr, CodeAttribute, CodeContent, Content};
use std::alloc::AllocError;

/// The sum, if 64 bits have it.
fn plus(first: u64, second: u64) -> Result<u64, AllocError>
    ensures { IfOk result (λ sum. sum ≡ first + second) }
{
    first.checked_add(second).ok_or(AllocError)
}

/// The bytes of a number of rows behind their count.
fn rows(count: usize, size: u64) -> Result<u64, AllocError>
    ensures { IfOk result (λ sum. sum ≡ 2 + size * count) }
{
    match size.checked_mul(count as u64) {
        Some(bytes) => plus(2, bytes),
        None => Err(AllocError),
    }
}

/// How many bytes stand in an attribute of a Code attribute behind its length. More than 64 bits count
/// are answered as want of memory.
pub(crate) fn code_content_length(content: &CodeContent) -> Result<u64, AllocError>
    ensures { IfOk result (λ length. length ≡ rule.code_content_length content.now) }
{
    match content {
        CodeContent::LineNumberTable(lines) => rows(lines.len(), 4),
        CodeContent::LocalVariableTable(variables)
        | CodeContent::LocalVariableTypeTable(variables) => rows(variables.len(), 10),
        CodeContent::Other(bytes) => Ok(bytes.len() as u64),
    }
}

/// How many bytes an attribute of a Code attribute has.
fn attribute_length(attribute: &CodeAttribute) -> Result<u64, AllocError>
    ensures { IfOk result (λ length. length ≡ 6 + rule.code_content_length attribute.now.content) }
{
    plus(6, code_content_length(&attribute.content)?)
}

fn attributes_length(attributes: &[CodeAttribute]) -> Result<u64, AllocError>
    ensures { IfOk result (λ length. length ≡ rule.attributes_length attributes.now) }
{
    let mut length = 0;
    for attribute in attributes {
        length = plus(length, attribute_length(attribute)?)?;
    }
    Ok(length)
}

fn code_length(code: &CodeAttr) -> Result<u64, AllocError>
    ensures { IfOk result (λ length. length ≡ rule.code_length code.now) }
{
    let front = plus(10, code.code.len() as u64)?;
    let tables = plus(front, rows(code.entries.len(), 8)?)?;
    plus(tables, attributes_length(code.attributes.as_slice())?)
}

/// How many bytes stand in an attribute behind its length. More than 64 bits count are answered as want
/// of memory.
pub(crate) fn content_length(content: &Content) -> Result<u64, AllocError>
    ensures { IfOk result (λ length. length ≡ rule.content_length content.now) }
{
    match content {
        Content::Code(code) => code_length(code),
        Content::ConstantValue(_) => Ok(2),
        Content::Exceptions(classes) => rows(classes.len(), 2),
        Content::InnerClasses(classes) => rows(classes.len(), 8),
        Content::Synthetic => Ok(0),
        Content::Other(bytes) => Ok(bytes.len() as u64),
    }
}
