//! The tables of a method's code, by the numbers of instructions.

ghost use Rattle.std.specs.Prelude.{◌≡◌, ◌++◌, ◌∷◌, IfOk, IfErr, Ok, Err};
ghost use Rattle.std.specs.List.{AllZip, filter_map};
ghost use Rattle.class_file.specs.declared.types.CodeAttribute.{CodeAttribute};
ghost use Rattle.class_file.specs.declared.types.ExceptionEntry.{ExceptionEntry};
ghost use Rattle.code_layout.specs.Numbers.{bound_by, or_target, entry_by, line_by, variable_by, lines_by, variables_by, FaultIs, start_by, FirstStray};

use crate::fault::TakeApartFault;
use crate::jumps::start_at;
use crate::method_code::{CodeEntry, Line, LineTable, Variable, VariableTable};
use class_file::{CodeAttribute, CodeContent, ExceptionEntry, LineRow, VariableRow};
use sqlite_items::Items;
use std::alloc::{AllocError, Global};

/// The number of the instruction that begins at a place, or that of all at the code's end.
fn bound_at(numbers: &[Option<u32>], count: u32, place: usize) -> Option<u32>
    ensures { result ≡ bound_by numbers.now count place }
{
    if place == numbers.len() {
        Some(count)
    } else {
        start_at(numbers, place)
    }
}

/// The number, or the fault at the place.
fn or_target(number: Option<u32>, place: u16) -> Result<u32, TakeApartFault>
    ensures { result ≡ or_target number place }
{
    match number {
        Some(number) => Ok(number),
        None => Err(TakeApartFault::Target(place.into())),
    }
}

/// An entry of the exception table.
fn entry(
    numbers: &[Option<u32>],
    count: u32,
    entry: &ExceptionEntry,
) -> Result<CodeEntry, TakeApartFault>
    ensures { result ≡ entry_by numbers.now count entry.now }
{
    let start = or_target(start_at(numbers, entry.start.into()), entry.start)?;
    let end = or_target(bound_at(numbers, count, entry.end.into()), entry.end)?;
    let handler = or_target(start_at(numbers, entry.handler.into()), entry.handler)?;
    Ok(CodeEntry {
        start,
        end,
        handler,
        catch_type: entry.catch_type,
    })
}

/// The exception table.
pub(crate) fn entries(
    alloc: Global,
    numbers: &[Option<u32>],
    count: u32,
    rows: &[ExceptionEntry],
) -> Result<Items<CodeEntry>, TakeApartFault>
    ensures found { IfOk result (λ all. AllZip (λ (e : ExceptionEntry) found. entry_by numbers.now count e ≡ Ok found) rows.now all) }
    ensures fault { IfErr result (FaultIs (λ _. ⊥) (FirstStray numbers.now count rows.now)) }
{
    let mut all = Vec::with_capacity(alloc, rows.len())?;
    for row in rows {
        match entry(numbers, count, row) {
            Ok(entry) => all.push(entry)?,
            Err(fault) => return Err(fault),
        }
    }
    Ok(Items::from_vec(all))
}

fn line(numbers: &[Option<u32>], row: &LineRow) -> Option<Line>
    ensures { result ≡ line_by numbers.now row.now }
{
    match start_at(numbers, row.start.into()) {
        Some(start) => Some(Line {
            start,
            line: row.line,
        }),
        None => None,
    }
}

/// The rows of a LineNumberTable that begin where an instruction does.
fn lines(alloc: Global, numbers: &[Option<u32>], rows: &[LineRow]) -> Result<Vec<Line>, AllocError>
    ensures { IfOk result (λ lines. lines.items ≡ filter_map (line_by numbers.now) rows.now) }
{
    rows.iter()
        .filter_map(|row| line(numbers, row))
        .collect(alloc)
}

fn variable(numbers: &[Option<u32>], count: u32, row: &VariableRow) -> Option<Variable>
    ensures { result ≡ variable_by numbers.now count row.now }
{
    let end = usize::from(row.start) + usize::from(row.length);
    match (
        start_at(numbers, row.start.into()),
        bound_at(numbers, count, end),
    ) {
        (Some(start), Some(end)) => Some(Variable {
            start,
            end,
            name: row.name,
            descriptor: row.descriptor,
            index: row.index,
        }),
        _ => None,
    }
}

/// The rows of a table of local variables whose bounds are those of instructions.
fn variables(
    alloc: Global,
    numbers: &[Option<u32>],
    count: u32,
    rows: &[VariableRow],
) -> Result<Vec<Variable>, AllocError>
    ensures { IfOk result (λ variables. variables.items ≡ filter_map (variable_by numbers.now count) rows.now) }
{
    rows.iter()
        .filter_map(|row| variable(numbers, count, row))
        .collect(alloc)
}

fn line_table(
    alloc: Global,
    numbers: &[Option<u32>],
    attribute: &CodeAttribute,
) -> Result<Option<LineTable>, AllocError>
    ensures { IfOk result (λ table. table ≡ lines_by numbers.now attribute.now.name attribute.now.content) }
{
    match &attribute.content {
        CodeContent::LineNumberTable(rows) => Ok(Some(LineTable {
            name: attribute.name,
            rows: Items::from_vec(lines(alloc, numbers, rows.as_slice())?),
        })),
        _ => Ok(None),
    }
}

#[tactic(auto, using(crate::proofs::Filtered::filtered))]
/// The tables of lines among the attributes.
pub(crate) fn line_tables(
    alloc: Global,
    numbers: &[Option<u32>],
    attributes: &[CodeAttribute],
) -> Result<Items<LineTable>, AllocError>
    ensures { IfOk result (λ tables. tables ≡ filter_map (λ (a : CodeAttribute). lines_by numbers.now a.name a.content) attributes.now) }
{
    let mut tables = Vec::new(alloc);
    for attribute in attributes {
        if let Some(table) = line_table(alloc, numbers, attribute)? {
            tables.push(table)?;
        }
    }
    Ok(Items::from_vec(tables))
}

fn variable_table(
    alloc: Global,
    numbers: &[Option<u32>],
    count: u32,
    attribute: &CodeAttribute,
) -> Result<Option<VariableTable>, AllocError>
    ensures { IfOk result (λ table. table ≡ variables_by numbers.now count attribute.now.name attribute.now.content) }
{
    let (generic, rows) = match &attribute.content {
        CodeContent::LocalVariableTable(rows) => (false, rows),
        CodeContent::LocalVariableTypeTable(rows) => (true, rows),
        _ => return Ok(None),
    };
    Ok(Some(VariableTable {
        name: attribute.name,
        generic,
        rows: Items::from_vec(variables(alloc, numbers, count, rows.as_slice())?),
    }))
}

#[tactic(auto, using(crate::proofs::Filtered::filtered))]
/// The tables of local variables among the attributes.
pub(crate) fn variable_tables(
    alloc: Global,
    numbers: &[Option<u32>],
    count: u32,
    attributes: &[CodeAttribute],
) -> Result<Items<VariableTable>, AllocError>
    ensures { IfOk result (λ tables. tables ≡ filter_map (λ (a : CodeAttribute). variables_by numbers.now count a.name a.content) attributes.now) }
{
    let mut tables = Vec::new(alloc);
    for attribute in attributes {
        if let Some(table) = variable_table(alloc, numbers, count, attribute)? {
            tables.push(table)?;
        }
    }
    Ok(Items::from_vec(tables))
}
