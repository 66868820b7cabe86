//! The lines of a method's code.

ghost use Rattle.std.specs.Prelude.{◌≡◌, ◌<◌, ◌^◌, ◌++◌, ◌∷◌, [], length, map, List, ℤ, Some, None, IfOk, OnOk};
ghost use Rattle.std.specs.Option.{option_map};
ghost use Rattle.std.specs.List.{AllByRecursion};
ghost use Rattle.class_file.specs.declared.types.Content.{Content};
ghost use Rattle.class_lines.specs.declared.line.Line.{Line};
ghost use Rattle.class_listing.specs.declared.listed.Listed.{Listed};
ghost use Rattle.class_listing.specs.Steps as rule;
ghost use Rattle.class_listing.specs.Listing as listing_rule;
ghost use Rattle.class_listing.specs.Walked.{placed_of, IsStep, AreMarks};

use crate::lengths::{code_content_length, content_length};
use crate::listed::Listed;
use crate::names::{caught, label, text_shown};
use crate::operations::operation;
use crate::places::{label_at, marks, named_places};
use crate::walk::{Step, steps_of};
use class_file::{Attribute, CodeAttr, CodeAttribute, ExceptionEntry, PoolEntry};
use class_lines::Line;
use sqlite_items::Items;
use std::alloc::{AllocError, Global};

/// The line of an instruction, with a label where its place is marked.
fn step_line(
    alloc: Global,
    pool: &[PoolEntry],
    code: &[u8],
    marks: &[bool],
    step: &Step,
) -> Result<Line, AllocError>
    requires small { length code.now < 2 ^ 16 }
    requires there { IsStep code.now step.now }
    requires rows { length marks.now ≡ length code.now }
    ensures { (places : List ℤ) → AreMarks (length code.now) places marks.now → IfOk result (λ line. line ≡ rule.step pool.now code.now places (placed_of step.now)) }
{
    Ok(Line::Step {
        label: label_at(alloc, marks, step.pc)?,
        operation: operation(alloc, pool, code, step.pc, step.insn)?,
    })
}

/// Adds the lines of the instructions. Those have labels that stand at the given places.
fn put_steps(
    listing: &mut Items<Listed>,
    alloc: Global,
    pool: &[PoolEntry],
    code: &[u8],
    places: &[i64],
    steps: &[Step],
) -> Result<(), AllocError>
    requires small { length code.now < 2 ^ 16 }
    requires there { AllByRecursion (IsStep code.now) steps.now }
    ensures { OnOk result (listing.new ≡ listing.old ++ map Listed.Line (map (rule.step pool.now code.now places.now) (map placed_of steps.now))) }
{
    let marks = marks(alloc, code.len(), places)?;
    for step in steps {
        let line = step_line(alloc, pool, code, marks.as_slice(), step)?;
        listing.push(Listed::Line(line))?;
    }
    Ok(())
}

/// The line of an entry of the exception table.
fn catch_line(alloc: Global, pool: &[PoolEntry], entry: &ExceptionEntry) -> Result<Line, AllocError>
    ensures { IfOk result (λ line. line ≡ rule.catch_line pool.now entry.now) }
{
    Ok(Line::Catch {
        from: label(alloc, i64::from(entry.start))?,
        to: label(alloc, i64::from(entry.end))?,
        handler: label(alloc, i64::from(entry.handler))?,
        class: caught(alloc, pool, entry.catch_type)?,
    })
}

fn put_catches(
    listing: &mut Items<Listed>,
    alloc: Global,
    pool: &[PoolEntry],
    entries: &[ExceptionEntry],
) -> Result<(), AllocError>
    ensures { OnOk result (listing.new ≡ listing.old ++ map Listed.Line (map (rule.catch_line pool.now) entries.now)) }
{
    for entry in entries {
        listing.push(Listed::Line(catch_line(alloc, pool, entry)?))?;
    }
    Ok(())
}

/// An attribute of a Code attribute.
fn code_attribute(
    alloc: Global,
    pool: &[PoolEntry],
    attribute: &CodeAttribute,
) -> Result<Listed, AllocError>
    ensures { IfOk result (λ listed. listed ≡ listing_rule.code_attribute pool.now attribute.now) }
{
    Ok(Listed::Attribute {
        name: text_shown(alloc, pool, attribute.name)?,
        length: code_content_length(&attribute.content)?,
    })
}

fn put_code_attributes(
    listing: &mut Items<Listed>,
    alloc: Global,
    pool: &[PoolEntry],
    attributes: &[CodeAttribute],
) -> Result<(), AllocError>
    ensures { OnOk result (listing.new ≡ listing.old ++ map (listing_rule.code_attribute pool.now) attributes.now) }
{
    for attribute in attributes {
        listing.push(code_attribute(alloc, pool, attribute)?)?;
    }
    Ok(())
}

/// Adds the lines of code with these instructions.
fn put_lines(
    listing: &mut Items<Listed>,
    alloc: Global,
    pool: &[PoolEntry],
    code: &CodeAttr,
    steps: &[Step],
) -> Result<(), AllocError>
    requires small { length code.now.code < 2 ^ 16 }
    requires there { AllByRecursion (IsStep code.now.code) steps.now }
    ensures { OnOk result (listing.new ≡ listing.old ++ map Listed.Line (rule.lines_of pool.now code.now (map placed_of steps.now))) }
{
    let bytes = code.code.as_slice();
    let entries = code.entries.as_slice();
    let places = named_places(alloc, bytes, steps, entries)?;
    put_steps(listing, alloc, pool, bytes, places.as_slice(), steps)?;
    put_catches(listing, alloc, pool, entries)
}

/// An attribute that class text can't say.
pub(crate) fn attribute(
    alloc: Global,
    pool: &[PoolEntry],
    attribute: &Attribute,
) -> Result<Listed, AllocError>
    ensures { IfOk result (λ listed. listed ≡ listing_rule.attribute pool.now attribute.now) }
{
    Ok(Listed::Attribute {
        name: text_shown(alloc, pool, attribute.name)?,
        length: content_length(&attribute.content)?,
    })
}

/// Adds the lines of code, if it has instructions, or else its attribute.
fn put_body(
    listing: &mut Items<Listed>,
    alloc: Global,
    pool: &[PoolEntry],
    whole: &Attribute,
    code: &CodeAttr,
) -> Result<(), AllocError>
    ensures { OnOk result (listing.new ≡ listing.old ++ listing_rule.body pool.now whole.now code.now (rule.insns_of code.now.code)) }
{
    match steps_of(alloc, code.code.as_slice())? {
        None => listing.push(attribute(alloc, pool, whole)?),
        Some(steps) => {
            put_lines(listing, alloc, pool, code, steps.as_slice())?;
            put_code_attributes(listing, alloc, pool, code.attributes.as_slice())
        }
    }
}

/// Adds the lines of a Code attribute, with an `end`.
pub(crate) fn put_code(
    listing: &mut Items<Listed>,
    alloc: Global,
    pool: &[PoolEntry],
    whole: &Attribute,
    code: &CodeAttr,
) -> Result<(), AllocError>
    ensures { OnOk result (listing.new ≡ listing.old ++ listing_rule.method_attribute pool.now whole.now (Content.Code code.now)) }
{
    put_body(listing, alloc, pool, whole, code)?;
    listing.push(Listed::Line(Line::End))
}
