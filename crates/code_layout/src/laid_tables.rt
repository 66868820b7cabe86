//! The tables of blocks that are laid out.

ghost use Rattle.std.specs.Prelude.{◌≡◌, ◌+◌, ◌<◌, ◌≤◌, ◌^◌, ◌++◌, length, map, IfOk, OnOk};
ghost use Rattle.std.specs.List.{AllByRecursion};
ghost use Rattle.code_layout.specs.declared.method_code.LineTable.{LineTable};
ghost use Rattle.code_layout.specs.declared.method_code.VariableTable.{VariableTable};
ghost use Rattle.code_layout.specs.Blocks.{IsBlock, IsEntryOf, IsOldEntry, IsLine, IsVariable, range_limit, row_count};
ghost use Rattle.code_layout.specs.Laid.{old_place, bound_place, own_entry, old_entry, line_row, variable_row, line_attribute, variable_attribute, entries_of, attributes_of};
ghost use Rattle.code_layout.specs.Spelled.{AreStarts, AreSmall, place_in};

use crate::block::{Block, BlockEntry};
use crate::method_code::{CodeEntry, Line, LineTable, Variable, VariableTable};
use crate::row::row_of;
use class_file::{CodeAttribute, CodeContent, ExceptionEntry, LineRow, VariableRow};
use sqlite_items::Items;
use std::alloc::{AllocError, Global};

/// The place of a row, or of the code's end.
fn place(places: &[u64], row: u32) -> u16
    requires within { row < length places.now }
    requires small { place_in places.now row < 2 ^ 16 }
    ensures { result ≡ place_in places.now row }
{
    places[row as usize] as u16
}

#[tactic(auto, using(crate::proofs::Starts::start_below))]
/// The place of the block of an old instruction, or of the code's end.
fn old_place(starts: &[u32], places: &[u64], blocks: &[Block], number: u32) -> u16
    requires starts { AreStarts blocks.now starts.now }
    requires places { AreSmall (row_count blocks.now) places.now }
    requires within { number ≤ length blocks.now }
    ensures { result ≡ old_place (place_in places.now) blocks.now number }
{
    place(places, starts[number as usize])
}

/// The place of a bound of an own entry, of the block whose first row is `start`.
fn bound_place(
    starts: &[u32],
    places: &[u64],
    blocks: &[Block],
    start: u32,
    block: &Block,
    old_range: bool,
    bound: u32,
) -> u16
    requires starts { AreStarts blocks.now starts.now }
    requires places { AreSmall (row_count blocks.now) places.now }
    requires few { row_count blocks.now < 2 ^ 32 }
    requires there { start + length block.now.insns ≤ row_count blocks.now }
    requires within { bound ≤ range_limit (length blocks.now) block.now old_range }
    ensures { result ≡ bound_place (place_in places.now) blocks.now start old_range bound }
{
    if old_range {
        old_place(starts, places, blocks, bound)
    } else {
        place(places, start + bound)
    }
}

#[tactic(auto, using(crate::proofs::Layable::target_within))]
/// An own entry of the block whose first row is `start`.
fn own_entry(
    starts: &[u32],
    places: &[u64],
    blocks: &[Block],
    start: u32,
    block: &Block,
    entry: &BlockEntry,
) -> ExceptionEntry
    requires starts { AreStarts blocks.now starts.now }
    requires places { AreSmall (row_count blocks.now) places.now }
    requires few { row_count blocks.now < 2 ^ 32 }
    requires there { start + length block.now.insns ≤ row_count blocks.now }
    requires labels { AllByRecursion (λ position. position ≤ length block.now.insns) block.now.labels }
    requires is { IsEntryOf (length blocks.now) block.now entry.now }
    ensures { result ≡ own_entry (place_in places.now) blocks.now start block.now.labels entry.now }
{
    let old_range = entry.old_range;
    let handler = row_of(starts, blocks, start, block, entry.handler);
    ExceptionEntry {
        start: bound_place(starts, places, blocks, start, block, old_range, entry.start),
        end: bound_place(starts, places, blocks, start, block, old_range, entry.end),
        handler: place(places, handler),
        catch_type: entry.catch_type,
    }
}

/// Adds the own entries of the block whose first row is `start`.
fn add_own(
    out: &mut Vec<ExceptionEntry>,
    starts: &[u32],
    places: &[u64],
    blocks: &[Block],
    start: u32,
    block: &Block,
) -> Result<(), AllocError>
    requires starts { AreStarts blocks.now starts.now }
    requires places { AreSmall (row_count blocks.now) places.now }
    requires few { row_count blocks.now < 2 ^ 32 }
    requires there { start + length block.now.insns ≤ row_count blocks.now }
    requires is { IsBlock (length blocks.now) block.now }
    ensures { OnOk result (out.new.items ≡ out.old.items ++ map (own_entry (place_in places.now) blocks.now start block.now.labels) block.now.entries) }
{
    for entry in block.entries.as_slice() {
        out.push(own_entry(starts, places, blocks, start, block, entry))?;
    }
    Ok(())
}

/// An old entry: its range covers whole blocks.
fn old_entry(starts: &[u32], places: &[u64], blocks: &[Block], entry: &CodeEntry) -> ExceptionEntry
    requires starts { AreStarts blocks.now starts.now }
    requires places { AreSmall (row_count blocks.now) places.now }
    requires is { IsOldEntry (length blocks.now) entry.now }
    ensures { result ≡ old_entry (place_in places.now) blocks.now entry.now }
{
    ExceptionEntry {
        start: old_place(starts, places, blocks, entry.start),
        end: old_place(starts, places, blocks, entry.end),
        handler: old_place(starts, places, blocks, entry.handler),
        catch_type: entry.catch_type,
    }
}

/// The exception table: the blocks' own entries, and then the old ones.
pub(crate) fn laid_entries(
    alloc: Global,
    starts: &[u32],
    places: &[u64],
    blocks: &[Block],
    entries: &[CodeEntry],
) -> Result<Vec<ExceptionEntry>, AllocError>
    requires starts { AreStarts blocks.now starts.now }
    requires places { AreSmall (row_count blocks.now) places.now }
    requires own { AllByRecursion (IsBlock (length blocks.now)) blocks.now }
    requires old { AllByRecursion (IsOldEntry (length blocks.now)) entries.now }
    ensures { IfOk result (λ laid. laid.items ≡ entries_of (place_in places.now) blocks.now entries.now) }
{
    let mut laid = Vec::new(alloc);
    for (i, block) in blocks.iter().enumerate() {
        add_own(&mut laid, starts, places, blocks, starts[i], block)?;
    }
    for entry in entries {
        laid.push(old_entry(starts, places, blocks, entry))?;
    }
    Ok(laid)
}

/// A row of lines, which follows its block.
fn line_row(starts: &[u32], places: &[u64], blocks: &[Block], row: &Line) -> LineRow
    requires starts { AreStarts blocks.now starts.now }
    requires places { AreSmall (row_count blocks.now) places.now }
    requires is { IsLine (length blocks.now) row.now }
    ensures { result ≡ line_row (place_in places.now) blocks.now row.now }
{
    LineRow {
        start: old_place(starts, places, blocks, row.start),
        line: row.line,
    }
}

/// A table of lines.
fn line_attribute(
    alloc: Global,
    starts: &[u32],
    places: &[u64],
    blocks: &[Block],
    table: &LineTable,
) -> Result<CodeAttribute, AllocError>
    requires starts { AreStarts blocks.now starts.now }
    requires places { AreSmall (row_count blocks.now) places.now }
    requires are { AllByRecursion (IsLine (length blocks.now)) table.now.rows }
    ensures { IfOk result (λ laid. laid ≡ line_attribute (place_in places.now) blocks.now table.now) }
{
    let mut rows = Vec::new(alloc);
    for row in table.rows.as_slice() {
        rows.push(line_row(starts, places, blocks, row))?;
    }
    Ok(CodeAttribute {
        name: table.name,
        content: CodeContent::LineNumberTable(Items::from_vec(rows)),
    })
}

/// A row of local variables, which follows its blocks.
fn variable_row(starts: &[u32], places: &[u64], blocks: &[Block], row: &Variable) -> VariableRow
    requires starts { AreStarts blocks.now starts.now }
    requires places { AreSmall (row_count blocks.now) places.now }
    requires is { IsVariable (length blocks.now) row.now }
    ensures { result ≡ variable_row (place_in places.now) blocks.now row.now }
{
    let start = old_place(starts, places, blocks, row.start);
    let end = old_place(starts, places, blocks, row.end);
    VariableRow {
        start,
        length: end - start,
        name: row.name,
        descriptor: row.descriptor,
        index: row.index,
    }
}

/// A table of local variables.
fn variable_attribute(
    alloc: Global,
    starts: &[u32],
    places: &[u64],
    blocks: &[Block],
    table: &VariableTable,
) -> Result<CodeAttribute, AllocError>
    requires starts { AreStarts blocks.now starts.now }
    requires places { AreSmall (row_count blocks.now) places.now }
    requires are { AllByRecursion (IsVariable (length blocks.now)) table.now.rows }
    ensures { IfOk result (λ laid. laid ≡ variable_attribute (place_in places.now) blocks.now table.now) }
{
    let mut rows = Vec::new(alloc);
    for row in table.rows.as_slice() {
        rows.push(variable_row(starts, places, blocks, row))?;
    }
    let rows = Items::from_vec(rows);
    Ok(CodeAttribute {
        name: table.name,
        content: if table.generic {
            CodeContent::LocalVariableTypeTable(rows)
        } else {
            CodeContent::LocalVariableTable(rows)
        },
    })
}

/// The tables of lines, and then those of local variables.
pub(crate) fn laid_attributes(
    alloc: Global,
    starts: &[u32],
    places: &[u64],
    blocks: &[Block],
    lines: &[LineTable],
    variables: &[VariableTable],
) -> Result<Vec<CodeAttribute>, AllocError>
    requires starts { AreStarts blocks.now starts.now }
    requires places { AreSmall (row_count blocks.now) places.now }
    requires lines { AllByRecursion (λ (t : LineTable). AllByRecursion (IsLine (length blocks.now)) t.rows) lines.now }
    requires variables { AllByRecursion (λ (t : VariableTable). AllByRecursion (IsVariable (length blocks.now)) t.rows) variables.now }
    ensures { IfOk result (λ laid. laid.items ≡ attributes_of (place_in places.now) blocks.now lines.now variables.now) }
{
    let mut laid = Vec::new(alloc);
    for table in lines {
        laid.push(line_attribute(alloc, starts, places, blocks, table)?)?;
    }
    for table in variables {
        laid.push(variable_attribute(alloc, starts, places, blocks, table)?)?;
    }
    Ok(laid)
}
