//! Writing a class file.

ghost use Rattle.std.specs.Prelude.{◌≡◌, ◌+◌, ◌<◌, ◌^◌, ◌++◌, length, List, ℕ, IfOk, OnOk, IsTrue, Ok, ◌∷◌};
ghost use Rattle.std.specs.List.{flat_map, list_all};
ghost use Rattle.std.specs.Int.{w16, to_be_bytes};
ghost use Rattle.class_file.specs.Spelling.{u2, u4, u8, counted, named, spelled_entry, spelled_pool, spelled_exception, spelled_inner, spelled_line, spelled_variable, spelled_code_content, spelled_code_attribute, spelled_code, spelled_content, spelled_attribute, spelled_member, spelling};
ghost use Rattle.class_file.specs.WellFormed.{is_well_formed};
ghost use Rattle.class_format.specs.Reading.{reading};
ghost use Rattle.class_format.specs.Writing.{spelled_head, spelled_body, body_fits};
ghost use Rattle.class_file.specs.Range.{is_writable, entry_fits, pool_fits, counted_fits, line_fits, variable_fits, exception_fits, inner_fits, is_u2, is_u4, code_content_fits, code_attribute_fits, code_fits, content_fits, attribute_fits, member_fits};

use class_file::{
    Attribute, ClassFile, CodeAttr, CodeAttribute, CodeContent, Content, ExceptionEntry,
    InnerClass, LineRow, Member, PoolEntry, VariableRow,
};
use std::alloc::{AllocError, Global};

/// The bytes that a class file begins with.
const MAGIC: [u8; 4] = [0xCA, 0xFE, 0xBA, 0xBE];

fn put_u2(out: &mut Vec<u8>, number: u16) -> Result<(), AllocError>
    ensures { OnOk result (out.new.items ≡ out.old.items ++ u2 number) }
{
    out.extend_from_slice(&number.to_be_bytes())
}

fn put_u4(out: &mut Vec<u8>, number: u32) -> Result<(), AllocError>
    ensures { OnOk result (out.new.items ≡ out.old.items ++ u4 number) }
{
    out.extend_from_slice(&number.to_be_bytes())
}

fn put_u8(out: &mut Vec<u8>, number: u64) -> Result<(), AllocError>
    ensures { OnOk result (out.new.items ≡ out.old.items ++ u8 number) }
{
    out.extend_from_slice(&number.to_be_bytes())
}

fn put_pair(out: &mut Vec<u8>, tag: u8, first: u16, second: u16) -> Result<(), AllocError>
    ensures { OnOk result (out.new.items ≡ out.old.items ++ (tag ∷ (u2 first ++ u2 second))) }
{
    out.push(tag)?;
    put_u2(out, first)?;
    put_u2(out, second)
}

fn put_index(out: &mut Vec<u8>, tag: u8, index: u16) -> Result<(), AllocError>
    ensures { OnOk result (out.new.items ≡ out.old.items ++ (tag ∷ u2 index)) }
{
    out.push(tag)?;
    put_u2(out, index)
}

fn put_bits(out: &mut Vec<u8>, tag: u8, bits: u32) -> Result<(), AllocError>
    ensures { OnOk result (out.new.items ≡ out.old.items ++ (tag ∷ u4 bits)) }
{
    out.push(tag)?;
    put_u4(out, bits)
}

fn put_wide_bits(out: &mut Vec<u8>, tag: u8, bits: u64) -> Result<(), AllocError>
    ensures { OnOk result (out.new.items ≡ out.old.items ++ (tag ∷ u8 bits)) }
{
    out.push(tag)?;
    put_u8(out, bits)
}

fn put_text(out: &mut Vec<u8>, text: &[u8]) -> Result<(), AllocError>
    requires { IsTrue (is_u2 (length text.now)) }
    ensures { OnOk result (out.new.items ≡ out.old.items ++ (1 ∷ (u2 (length text.now) ++ text.now))) }
{
    out.push(1)?;
    put_u2(out, text.len() as u16)?;
    out.extend_from_slice(text)
}

fn put_entry(out: &mut Vec<u8>, entry: &PoolEntry) -> Result<(), AllocError>
    requires { IsTrue (entry_fits entry.now) }
    ensures { OnOk result (out.new.items ≡ out.old.items ++ spelled_entry entry.now) }
{
    match entry {
        PoolEntry::Utf8(text) => put_text(out, text.as_slice()),
        PoolEntry::Integer(n) => put_bits(out, 3, n.cast_unsigned()),
        PoolEntry::Float(bits) => put_bits(out, 4, *bits),
        PoolEntry::Long(n) => put_wide_bits(out, 5, n.cast_unsigned()),
        PoolEntry::Double(bits) => put_wide_bits(out, 6, *bits),
        PoolEntry::Class(name) => put_index(out, 7, *name),
        PoolEntry::String(text) => put_index(out, 8, *text),
        PoolEntry::Fieldref(class, member) => put_pair(out, 9, *class, *member),
        PoolEntry::Methodref(class, member) => put_pair(out, 10, *class, *member),
        PoolEntry::InterfaceMethodref(class, member) => put_pair(out, 11, *class, *member),
        PoolEntry::NameAndType(name, descriptor) => put_pair(out, 12, *name, *descriptor),
        PoolEntry::Second => Ok(()),
    }
}

fn put_entries(out: &mut Vec<u8>, entries: &[PoolEntry]) -> Result<(), AllocError>
    requires { IsTrue (list_all entry_fits entries.now) }
    ensures { OnOk result (out.new.items ≡ out.old.items ++ flat_map spelled_entry entries.now) }
{
    for entry in entries {
        put_entry(out, entry)?;
    }
    Ok(())
}

fn put_pool(out: &mut Vec<u8>, pool: &[PoolEntry]) -> Result<(), AllocError>
    requires { IsTrue (pool_fits pool.now) }
    ensures { OnOk result (out.new.items ≡ out.old.items ++ spelled_pool pool.now) }
{
    put_u2(out, pool.len() as u16 + 1)?;
    put_entries(out, pool)
}

fn put_indices(out: &mut Vec<u8>, indices: &[u16]) -> Result<(), AllocError>
    ensures { OnOk result (out.new.items ≡ out.old.items ++ flat_map u2 indices.now) }
{
    for index in indices {
        put_u2(out, *index)?;
    }
    Ok(())
}

fn put_counted_indices(out: &mut Vec<u8>, indices: &[u16]) -> Result<(), AllocError>
    requires { IsTrue (counted_fits is_u2 indices.now) }
    ensures { OnOk result (out.new.items ≡ out.old.items ++ counted u2 indices.now) }
{
    put_u2(out, indices.len() as u16)?;
    put_indices(out, indices)
}

fn put_exception(out: &mut Vec<u8>, entry: &ExceptionEntry) -> Result<(), AllocError>
    ensures { OnOk result (out.new.items ≡ out.old.items ++ spelled_exception entry.now) }
{
    put_u2(out, entry.start)?;
    put_u2(out, entry.end)?;
    put_u2(out, entry.handler)?;
    put_u2(out, entry.catch_type)
}

fn put_exceptions(out: &mut Vec<u8>, exceptions: &[ExceptionEntry]) -> Result<(), AllocError>
    ensures { OnOk result (out.new.items ≡ out.old.items ++ flat_map spelled_exception exceptions.now) }
{
    for entry in exceptions {
        put_exception(out, entry)?;
    }
    Ok(())
}

fn put_counted_exceptions(
    out: &mut Vec<u8>,
    exceptions: &[ExceptionEntry],
) -> Result<(), AllocError>
    requires { IsTrue (counted_fits exception_fits exceptions.now) }
    ensures { OnOk result (out.new.items ≡ out.old.items ++ counted spelled_exception exceptions.now) }
{
    put_u2(out, exceptions.len() as u16)?;
    put_exceptions(out, exceptions)
}

fn put_inner(out: &mut Vec<u8>, class: &InnerClass) -> Result<(), AllocError>
    ensures { OnOk result (out.new.items ≡ out.old.items ++ spelled_inner class.now) }
{
    put_u2(out, class.inner)?;
    put_u2(out, class.outer)?;
    put_u2(out, class.name)?;
    put_u2(out, class.flags.0)
}

fn put_inners(out: &mut Vec<u8>, inners: &[InnerClass]) -> Result<(), AllocError>
    ensures { OnOk result (out.new.items ≡ out.old.items ++ flat_map spelled_inner inners.now) }
{
    for class in inners {
        put_inner(out, class)?;
    }
    Ok(())
}

fn put_counted_inners(out: &mut Vec<u8>, inners: &[InnerClass]) -> Result<(), AllocError>
    requires { IsTrue (counted_fits inner_fits inners.now) }
    ensures { OnOk result (out.new.items ≡ out.old.items ++ counted spelled_inner inners.now) }
{
    put_u2(out, inners.len() as u16)?;
    put_inners(out, inners)
}

fn put_line(out: &mut Vec<u8>, row: &LineRow) -> Result<(), AllocError>
    ensures { OnOk result (out.new.items ≡ out.old.items ++ spelled_line row.now) }
{
    put_u2(out, row.start)?;
    put_u2(out, row.line)
}

fn put_lines(out: &mut Vec<u8>, lines: &[LineRow]) -> Result<(), AllocError>
    ensures { OnOk result (out.new.items ≡ out.old.items ++ flat_map spelled_line lines.now) }
{
    for row in lines {
        put_line(out, row)?;
    }
    Ok(())
}

fn put_counted_lines(out: &mut Vec<u8>, lines: &[LineRow]) -> Result<(), AllocError>
    requires { IsTrue (counted_fits line_fits lines.now) }
    ensures { OnOk result (out.new.items ≡ out.old.items ++ counted spelled_line lines.now) }
{
    put_u2(out, lines.len() as u16)?;
    put_lines(out, lines)
}

fn put_variable(out: &mut Vec<u8>, row: &VariableRow) -> Result<(), AllocError>
    ensures { OnOk result (out.new.items ≡ out.old.items ++ spelled_variable row.now) }
{
    put_u2(out, row.start)?;
    put_u2(out, row.length)?;
    put_u2(out, row.name)?;
    put_u2(out, row.descriptor)?;
    put_u2(out, row.index)
}

fn put_variables(out: &mut Vec<u8>, variables: &[VariableRow]) -> Result<(), AllocError>
    ensures { OnOk result (out.new.items ≡ out.old.items ++ flat_map spelled_variable variables.now) }
{
    for row in variables {
        put_variable(out, row)?;
    }
    Ok(())
}

fn put_counted_variables(out: &mut Vec<u8>, variables: &[VariableRow]) -> Result<(), AllocError>
    requires { IsTrue (counted_fits variable_fits variables.now) }
    ensures { OnOk result (out.new.items ≡ out.old.items ++ counted spelled_variable variables.now) }
{
    put_u2(out, variables.len() as u16)?;
    put_variables(out, variables)
}

/// An attribute: the index of its name, and its content behind the length (JVMS 4.7).
fn put_named(out: &mut Vec<u8>, name: u16, content: &[u8]) -> Result<(), AllocError>
    requires { IsTrue (is_u4 (length content.now)) }
    ensures { OnOk result (out.new.items ≡ out.old.items ++ named name content.now) }
{
    put_u2(out, name)?;
    put_u4(out, content.len() as u32)?;
    out.extend_from_slice(content)
}

fn put_code_content(out: &mut Vec<u8>, content: &CodeContent) -> Result<(), AllocError>
    requires { IsTrue (code_content_fits content.now) }
    ensures { OnOk result (out.new.items ≡ out.old.items ++ spelled_code_content content.now) }
{
    match content {
        CodeContent::LineNumberTable(rows) => put_counted_lines(out, rows.as_slice()),
        CodeContent::LocalVariableTable(rows) => put_counted_variables(out, rows.as_slice()),
        CodeContent::LocalVariableTypeTable(rows) => put_counted_variables(out, rows.as_slice()),
        CodeContent::Other(bytes) => out.extend_from_slice(bytes.as_slice()),
    }
}

fn put_code_attribute(
    alloc: Global,
    out: &mut Vec<u8>,
    attribute: &CodeAttribute,
) -> Result<(), AllocError>
    requires { IsTrue (code_attribute_fits attribute.now) }
    ensures { OnOk result (out.new.items ≡ out.old.items ++ spelled_code_attribute attribute.now) }
{
    let mut content = Vec::new(alloc);
    put_code_content(&mut content, &attribute.content)?;
    put_named(out, attribute.name, content.as_slice())
}

fn put_code_attributes(
    alloc: Global,
    out: &mut Vec<u8>,
    code_attributes: &[CodeAttribute],
) -> Result<(), AllocError>
    requires { IsTrue (list_all code_attribute_fits code_attributes.now) }
    ensures { OnOk result (out.new.items ≡ out.old.items ++ flat_map spelled_code_attribute code_attributes.now) }
{
    for attribute in code_attributes {
        put_code_attribute(alloc, out, attribute)?;
    }
    Ok(())
}

fn put_counted_code_attributes(
    alloc: Global,
    out: &mut Vec<u8>,
    code_attributes: &[CodeAttribute],
) -> Result<(), AllocError>
    requires { IsTrue (counted_fits code_attribute_fits code_attributes.now) }
    ensures { OnOk result (out.new.items ≡ out.old.items ++ counted spelled_code_attribute code_attributes.now) }
{
    put_u2(out, code_attributes.len() as u16)?;
    put_code_attributes(alloc, out, code_attributes)
}

fn put_code(alloc: Global, out: &mut Vec<u8>, code: &CodeAttr) -> Result<(), AllocError>
    requires { IsTrue (code_fits code.now) }
    ensures { OnOk result (out.new.items ≡ out.old.items ++ spelled_code code.now) }
{
    put_u2(out, code.max_stack)?;
    put_u2(out, code.max_locals)?;
    put_u4(out, code.code.len() as u32)?;
    out.extend_from_slice(code.code.as_slice())?;
    put_counted_exceptions(out, code.entries.as_slice())?;
    put_counted_code_attributes(alloc, out, code.attributes.as_slice())
}

fn put_content(alloc: Global, out: &mut Vec<u8>, content: &Content) -> Result<(), AllocError>
    requires { IsTrue (content_fits content.now) }
    ensures { OnOk result (out.new.items ≡ out.old.items ++ spelled_content content.now) }
{
    match content {
        Content::Code(code) => put_code(alloc, out, code),
        Content::ConstantValue(constant) => put_u2(out, *constant),
        Content::Exceptions(classes) => put_counted_indices(out, classes.as_slice()),
        Content::InnerClasses(classes) => put_counted_inners(out, classes.as_slice()),
        Content::Synthetic => Ok(()),
        Content::Other(bytes) => out.extend_from_slice(bytes.as_slice()),
    }
}

fn put_attribute(alloc: Global, out: &mut Vec<u8>, attribute: &Attribute) -> Result<(), AllocError>
    requires { IsTrue (attribute_fits attribute.now) }
    ensures { OnOk result (out.new.items ≡ out.old.items ++ spelled_attribute attribute.now) }
{
    let mut content = Vec::new(alloc);
    put_content(alloc, &mut content, &attribute.content)?;
    put_named(out, attribute.name, content.as_slice())
}

fn put_attributes(
    alloc: Global,
    out: &mut Vec<u8>,
    attributes: &[Attribute],
) -> Result<(), AllocError>
    requires { IsTrue (list_all attribute_fits attributes.now) }
    ensures { OnOk result (out.new.items ≡ out.old.items ++ flat_map spelled_attribute attributes.now) }
{
    for attribute in attributes {
        put_attribute(alloc, out, attribute)?;
    }
    Ok(())
}

fn put_counted_attributes(
    alloc: Global,
    out: &mut Vec<u8>,
    attributes: &[Attribute],
) -> Result<(), AllocError>
    requires { IsTrue (counted_fits attribute_fits attributes.now) }
    ensures { OnOk result (out.new.items ≡ out.old.items ++ counted spelled_attribute attributes.now) }
{
    put_u2(out, attributes.len() as u16)?;
    put_attributes(alloc, out, attributes)
}

fn put_member(alloc: Global, out: &mut Vec<u8>, member: &Member) -> Result<(), AllocError>
    requires { IsTrue (member_fits member.now) }
    ensures { OnOk result (out.new.items ≡ out.old.items ++ spelled_member member.now) }
{
    put_u2(out, member.flags.0)?;
    put_u2(out, member.name)?;
    put_u2(out, member.descriptor)?;
    put_counted_attributes(alloc, out, member.attributes.as_slice())
}

fn put_members(alloc: Global, out: &mut Vec<u8>, members: &[Member]) -> Result<(), AllocError>
    requires { IsTrue (list_all member_fits members.now) }
    ensures { OnOk result (out.new.items ≡ out.old.items ++ flat_map spelled_member members.now) }
{
    for member in members {
        put_member(alloc, out, member)?;
    }
    Ok(())
}

fn put_counted_members(
    alloc: Global,
    out: &mut Vec<u8>,
    members: &[Member],
) -> Result<(), AllocError>
    requires { IsTrue (counted_fits member_fits members.now) }
    ensures { OnOk result (out.new.items ≡ out.old.items ++ counted spelled_member members.now) }
{
    put_u2(out, members.len() as u16)?;
    put_members(alloc, out, members)
}

/// Versions, pool, flags and the indices of the class and its superclass.
fn put_head(out: &mut Vec<u8>, class: &ClassFile) -> Result<(), AllocError>
    requires { IsTrue (pool_fits class.now.pool) }
    ensures { OnOk result (out.new.items ≡ out.old.items ++ spelled_head class.now) }
{
    out.extend_from_slice(&MAGIC)?;
    put_u2(out, class.minor)?;
    put_u2(out, class.major)?;
    put_pool(out, class.pool.as_slice())?;
    put_u2(out, class.flags.0)?;
    put_u2(out, class.this_class)?;
    put_u2(out, class.super_class)
}

fn put_body(alloc: Global, out: &mut Vec<u8>, class: &ClassFile) -> Result<(), AllocError>
    requires { IsTrue (body_fits class.now) }
    ensures { OnOk result (out.new.items ≡ out.old.items ++ spelled_body class.now) }
{
    put_counted_indices(out, class.interfaces.as_slice())?;
    put_counted_members(alloc, out, class.fields.as_slice())?;
    put_counted_members(alloc, out, class.methods.as_slice())?;
    put_counted_attributes(alloc, out, class.attributes.as_slice())
}

/// The bytes that spell the class (JVMS 4.1).
pub fn write_class(alloc: Global, class: &ClassFile) -> Result<Vec<u8>, AllocError>
    requires { IsTrue (is_writable class.now) }
    ensures spelled { IfOk result (λ v. v.items ≡ spelling class.now) }
    // A well-formed class is read again from what is written.
    ensures back { IsTrue (is_well_formed class.now) → IfOk result (λ v. reading v.items ≡ Ok class.now) }
{
    let mut out = Vec::new(alloc);
    put_head(&mut out, class)?;
    put_body(alloc, &mut out, class)?;
    Ok(out)
}
