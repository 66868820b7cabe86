//! The places that a method's code names.

ghost use Rattle.std.specs.Prelude.{◌≡◌, ◌<◌, ◌^◌, ◌++◌, ◌∷◌, [], ◌||◌, length, map, pos, ◌+ℤ◌, ℕ, false, get_or, if◌then◌else◌, Some, None, IfOk, OnOk};
ghost use Rattle.std.specs.List.{flat_map, AllByRecursion};
ghost use Rattle.opcode_table.specs.declared.insn.Insn.{Insn};
ghost use Rattle.opcode_table.specs.Spelling.{HasTable, HasPairs, HasSwitch};
ghost use Rattle.class_file.specs.Code.{offsets};
ghost use Rattle.class_listing.specs.Names as names;
ghost use Rattle.class_listing.specs.Steps.{leads_to, bounds_of, is_at};
ghost use Rattle.class_listing.specs.Steps as rule;
ghost use Rattle.class_listing.specs.Walked.{placed_of, IsStep, AreMarks};

use crate::names::label;
use crate::walk::Step;
use aj_names::ByteString;
use class_file::ExceptionEntry;
use opcode_table::{Insn, pair_count, pair_offset, switch_default, table_count, table_offset};
use std::alloc::{AllocError, Global};

#[tactic(auto, using(crate::proofs::Numbered::numbered_more))]
/// The offsets of a `tableswitch`: first the default's.
fn table_offsets(alloc: Global, code: &[u8], table: u32) -> Result<Vec<i32>, AllocError>
    requires small { length code.now < 2 ^ 16 }
    requires there { HasTable code.now table }
    ensures { IfOk result (λ found. found.items ≡ offsets code.now (Insn.TableSwitch table)) }
{
    let mut found = Vec::new(alloc);
    found.push(switch_default(code, table))?;
    for i in 0..table_count(code, table) {
        found.push(table_offset(code, table, i))?;
    }
    Ok(found)
}

#[tactic(auto, using(crate::proofs::Numbered::numbered_more))]
/// The offsets of a `lookupswitch`: first the default's.
fn pair_offsets(alloc: Global, code: &[u8], table: u32) -> Result<Vec<i32>, AllocError>
    requires { HasPairs code.now table }
    ensures { IfOk result (λ found. found.items ≡ offsets code.now (Insn.LookupSwitch table)) }
{
    let mut found = Vec::new(alloc);
    found.push(switch_default(code, table))?;
    for i in 0..pair_count(code, table) {
        found.push(pair_offset(code, table, i))?;
    }
    Ok(found)
}

/// The distances from an instruction to where it may lead, but for the next one.
fn offsets(alloc: Global, code: &[u8], insn: Insn) -> Result<Vec<i32>, AllocError>
    requires small { length code.now < 2 ^ 16 }
    requires there { HasSwitch code.now insn }
    ensures { IfOk result (λ found. found.items ≡ offsets code.now insn) }
{
    match insn {
        Insn::Branch { offset, .. } => Vec::from_slice(alloc, &[offset]),
        Insn::TableSwitch { table } => table_offsets(alloc, code, table),
        Insn::LookupSwitch { table } => pair_offsets(alloc, code, table),
        _ => Ok(Vec::new(alloc)),
    }
}

/// Adds the places at these distances from another.
fn put_targets(places: &mut Vec<i64>, pc: u32, offsets: &[i32]) -> Result<(), AllocError>
    ensures { OnOk result (places.new.items ≡ places.old.items ++ map (λ offset. pos pc +ℤ offset) offsets.now) }
{
    for offset in offsets {
        places.push(i64::from(pc) + i64::from(*offset))?;
    }
    Ok(())
}

/// Adds the places where an instruction may lead, but for the next one.
fn put_leads(
    places: &mut Vec<i64>,
    alloc: Global,
    code: &[u8],
    step: &Step,
) -> Result<(), AllocError>
    requires small { length code.now < 2 ^ 16 }
    requires there { IsStep code.now step.now }
    ensures { OnOk result (places.new.items ≡ places.old.items ++ leads_to code.now (placed_of step.now)) }
{
    let found = offsets(alloc, code, step.insn)?;
    put_targets(places, step.pc, found.as_slice())
}

/// Adds the places that an entry of the exception table names.
fn put_bounds(places: &mut Vec<i64>, entry: &ExceptionEntry) -> Result<(), AllocError>
    ensures { OnOk result (places.new.items ≡ places.old.items ++ bounds_of entry.now) }
{
    places.extend_from_slice(&[
        i64::from(entry.start),
        i64::from(entry.end),
        i64::from(entry.handler),
    ])
}

/// The places where instructions may lead.
fn all_leads(alloc: Global, code: &[u8], steps: &[Step]) -> Result<Vec<i64>, AllocError>
    requires small { length code.now < 2 ^ 16 }
    requires there { AllByRecursion (IsStep code.now) steps.now }
    ensures { IfOk result (λ places. places.items ≡ flat_map (leads_to code.now) (map placed_of steps.now)) }
{
    let mut places = Vec::new(alloc);
    for step in steps {
        put_leads(&mut places, alloc, code, step)?;
    }
    Ok(places)
}

/// Adds the places that the exception table names.
fn put_all_bounds(places: &mut Vec<i64>, entries: &[ExceptionEntry]) -> Result<(), AllocError>
    ensures { OnOk result (places.new.items ≡ places.old.items ++ flat_map bounds_of entries.now) }
{
    for entry in entries {
        put_bounds(places, entry)?;
    }
    Ok(())
}

/// The places that the instructions and the exception table name.
pub(crate) fn named_places(
    alloc: Global,
    code: &[u8],
    steps: &[Step],
    entries: &[ExceptionEntry],
) -> Result<Vec<i64>, AllocError>
    requires small { length code.now < 2 ^ 16 }
    requires there { AllByRecursion (IsStep code.now) steps.now }
    ensures { IfOk result (λ places. places.items ≡ rule.named_places code.now (map placed_of steps.now) entries.now) }
{
    let mut places = all_leads(alloc, code, steps)?;
    put_all_bounds(&mut places, entries)?;
    Ok(places)
}

/// Marks a place, if the code has it.
fn mark(marks: &mut [bool], place: i64)
    ensures { (pc : ℕ) → pc < length marks.old → get_or marks.new pc false ≡ (get_or marks.old pc false || is_at pc place) }
{
    if place >= 0 && (place as u64) < marks.len() as u64 {
        marks[place as usize] = true;
    }
}

/// A table that says of each place of the code whether it is named.
pub(crate) fn marks(alloc: Global, size: usize, places: &[i64]) -> Result<Vec<bool>, AllocError>
    ensures { IfOk result (λ marks. AreMarks size places.now marks.items) }
{
    let mut marks = Vec::new(alloc);
    marks.resize(size, false)?;
    for place in places {
        mark(&mut marks, *place);
    }
    Ok(marks)
}

/// The label of a place, if it is marked.
pub(crate) fn label_at(
    alloc: Global,
    marks: &[bool],
    pc: u32,
) -> Result<Option<ByteString>, AllocError>
    requires { pc < length marks.now }
    ensures { IfOk result (λ name. name ≡ (if get_or marks.now pc false then Some (names.label (pos pc)) else None)) }
{
    if marks[pc as usize] {
        Ok(Some(label(alloc, i64::from(pc))?))
    } else {
        Ok(None)
    }
}
