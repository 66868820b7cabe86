//! The listing of a class file.

ghost use Rattle.std.specs.Prelude.{◌≡◌, ◌++◌, ℕ, List, map, Ok, IfOk, OnOk};
ghost use Rattle.std.specs.Option.{option_copied};
ghost use Rattle.std.specs.List.{flat_map};
ghost use Rattle.class_file.specs.declared.types.Attribute.{Attribute};
ghost use Rattle.class_text.specs.ClassOf.{class_of};
ghost use Rattle.class_listing.specs.Names.{class_shown};
ghost use Rattle.class_listing.specs.Listing as rule;

use crate::body::{attribute, put_code};
use crate::listed::{Listed, text_of};
use crate::names::{class_shown, text_shown};
use aj_names::ByteString;
use class_file::{Attribute, ClassFile, CodeAttr, Content, Member, PoolEntry};
use class_lines::{Line, MemberHead};
use sqlite_items::Items;
use std::alloc::{AllocError, Global};

fn put_attributes(
    listing: &mut Items<Listed>,
    alloc: Global,
    pool: &[PoolEntry],
    attributes: &[Attribute],
) -> Result<(), AllocError>
    ensures { OnOk result (listing.new ≡ listing.old ++ map (rule.attribute pool.now) attributes.now) }
{
    for one in attributes {
        listing.push(attribute(alloc, pool, one)?)?;
    }
    Ok(())
}

/// The name, the descriptor and the flags of a member.
fn head(alloc: Global, pool: &[PoolEntry], member: &Member) -> Result<MemberHead, AllocError>
    ensures { IfOk result (λ head. head ≡ rule.head pool.now member.now) }
{
    Ok(MemberHead {
        name: text_shown(alloc, pool, member.name)?,
        descriptor: text_shown(alloc, pool, member.descriptor)?,
        flags: member.flags.0,
    })
}

/// Adds the lines of a field.
fn put_field(
    listing: &mut Items<Listed>,
    alloc: Global,
    pool: &[PoolEntry],
    member: &Member,
) -> Result<(), AllocError>
    ensures { OnOk result (listing.new ≡ listing.old ++ rule.field pool.now member.now) }
{
    listing.push(Listed::Line(Line::Field(head(alloc, pool, member)?)))?;
    put_attributes(listing, alloc, pool, member.attributes.as_slice())
}

fn put_fields(
    listing: &mut Items<Listed>,
    alloc: Global,
    pool: &[PoolEntry],
    members: &[Member],
) -> Result<(), AllocError>
    ensures { OnOk result (listing.new ≡ listing.old ++ flat_map (rule.field pool.now) members.now) }
{
    for member in members {
        put_field(listing, alloc, pool, member)?;
    }
    Ok(())
}

/// Adds the lines of a method's attribute.
fn put_method_attribute(
    listing: &mut Items<Listed>,
    alloc: Global,
    pool: &[PoolEntry],
    one: &Attribute,
) -> Result<(), AllocError>
    ensures { OnOk result (listing.new ≡ listing.old ++ rule.method_attribute pool.now one.now one.now.content) }
{
    match &one.content {
        Content::Code(code) => put_code(listing, alloc, pool, one, code),
        _ => listing.push(attribute(alloc, pool, one)?),
    }
}

fn put_method_attributes(
    listing: &mut Items<Listed>,
    alloc: Global,
    pool: &[PoolEntry],
    attributes: &[Attribute],
) -> Result<(), AllocError>
    ensures { OnOk result (listing.new ≡ listing.old ++ flat_map (λ (a : Attribute). rule.method_attribute pool.now a a.content) attributes.now) }
{
    for one in attributes {
        put_method_attribute(listing, alloc, pool, one)?;
    }
    Ok(())
}

/// The first code among the attributes of a method.
fn code_of(attributes: &[Attribute]) -> Option<&CodeAttr>
    ensures { option_copied result ≡ rule.code_of attributes.now }
{
    let mut rest = attributes;
    while let [first, others @ ..] = rest {
        if let Content::Code(code) = &first.content {
            return Some(code);
        }
        rest = others;
    }
    None
}

/// The line of a method's name, of its descriptor and its flags.
fn method_line(head: MemberHead, code: Option<&CodeAttr>) -> Line
    ensures { result ≡ rule.method_line head (option_copied code.entry) }
{
    match code {
        Some(code) => Line::Method {
            head,
            stack: code.max_stack,
            locals: code.max_locals,
        },
        None => Line::Bare(head),
    }
}

/// Adds the lines of a method.
fn put_method(
    listing: &mut Items<Listed>,
    alloc: Global,
    pool: &[PoolEntry],
    member: &Member,
) -> Result<(), AllocError>
    ensures { OnOk result (listing.new ≡ listing.old ++ rule.method pool.now member.now) }
{
    let attributes = member.attributes.as_slice();
    let head = head(alloc, pool, member)?;
    listing.push(Listed::Line(method_line(head, code_of(attributes))))?;
    put_method_attributes(listing, alloc, pool, attributes)
}

fn put_methods(
    listing: &mut Items<Listed>,
    alloc: Global,
    pool: &[PoolEntry],
    members: &[Member],
) -> Result<(), AllocError>
    ensures { OnOk result (listing.new ≡ listing.old ++ flat_map (rule.method pool.now) members.now) }
{
    for member in members {
        put_method(listing, alloc, pool, member)?;
    }
    Ok(())
}

/// The names of the classes at the indices.
fn class_names(
    alloc: Global,
    pool: &[PoolEntry],
    indices: &[u16],
) -> Result<Items<ByteString>, AllocError>
    ensures { IfOk result (λ names. names ≡ map (class_shown pool.now) indices.now) }
{
    let mut names = Items::new(alloc);
    for index in indices {
        names.push(class_shown(alloc, pool, *index)?)?;
    }
    Ok(names)
}

/// The line of the class itself.
fn class_line(alloc: Global, class: &ClassFile) -> Result<Line, AllocError>
    ensures { IfOk result (λ line. line ≡ rule.class_line class.now) }
{
    let pool = class.pool.as_slice();
    Ok(Line::Class {
        name: class_shown(alloc, pool, class.this_class)?,
        super_name: class_shown(alloc, pool, class.super_class)?,
        version: class.major,
        flags: class.flags.0,
        interfaces: class_names(alloc, pool, class.interfaces.as_slice())?,
    })
}

/// The lines of a class file.
fn listing_of(alloc: Global, class: &ClassFile) -> Result<Items<Listed>, AllocError>
    ensures { IfOk result (λ listing. listing ≡ rule.listing_of class.now) }
{
    let pool = class.pool.as_slice();
    let mut listing = Items::new(alloc);
    listing.push(Listed::Line(class_line(alloc, class)?))?;
    put_fields(&mut listing, alloc, pool, class.fields.as_slice())?;
    put_methods(&mut listing, alloc, pool, class.methods.as_slice())?;
    put_attributes(&mut listing, alloc, pool, class.attributes.as_slice())?;
    Ok(listing)
}

/// The text of a class file.
fn class_text(alloc: Global, class: &ClassFile) -> Result<Vec<u8>, AllocError>
    ensures { IfOk result (λ text. text.items ≡ rule.listing_text (rule.listing_of class.now)) }
{
    let listing = listing_of(alloc, class)?;
    text_of(alloc, listing.as_slice())
}

/// Class text of a class file: the class with its flags and interfaces, its fields and its methods, and
/// of a method's code the instructions in order and then the exception table. The place of an
/// instruction is its label where a branch, a switch or the exception table names it. Each attribute
/// that class text can't say has a line `attribute NAME N`, where N is its length in bytes (JVMS 4.7),
/// and so has code with a place where no instruction stands. That line is none of class text, so that a
/// text with one is not read as a class.
///
/// The text is in UTF-8. A name that the class file lacks is written `.`, and so is a blank or a line
/// feed in a name: no name has a `.` (JVMS 4.2).
pub fn to_text(alloc: Global, class: &ClassFile) -> Result<Vec<u8>, AllocError>
    ensures exact { IfOk result (λ text. text.items ≡ rule.listing_text (rule.listing_of class.now)) }
    // A class that a text is comes back from the text that is given here.
    ensures back { (text : List ℕ) → class_of text ≡ Ok class.now → IfOk result (λ given. class_of given.items ≡ Ok class.now) }
{
    class_text(alloc, class)
}
