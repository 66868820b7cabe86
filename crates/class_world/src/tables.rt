//! Places in lists of steps: of each place the places one step up. The table of a place has the place
//! and all above it, each once, in the order in which a walk up meets them.

ghost use Rattle.std.specs.Prelude.{◌≡◌, ◌+◌, ◌≤◌, ◌<◌, ◌^◌, [], ◌∷◌, length, replicate, IfOk, OnOk};
ghost use Rattle.std.specs.List.{list_all, fold};
ghost use Rattle.class_world.specs.Places.{with_new, AreWithin, AreAll, AreUnready, IsMarked, IsClear, is_filled, joined, HasTables, IsLeft};
ghost use Rattle.class_world.specs.Filled.{TablesAre};
ghost use Rattle.class_world.specs.Above.{unmarked};

use sqlite_items::Items;
use std::alloc::{AllocError, Global};

/// What a filling of the tables comes to.
pub(crate) enum Tables {
    /// Each place has its table.
    Whole(Vec<Items<u32>>),
    /// The places that have no table, since each has a step to another of them.
    Stuck(Vec<u32>),
}

// Whether the place has its table.
fn has_table(tables: &[Items<u32>], place: u32) -> bool
    requires { place < length tables.now }
    ensures { result ≡ is_filled tables.now place }
{
    !tables[place as usize].is_empty()
}

// Whether each of the places has its table.
fn is_ready(tables: &[Items<u32>], places: &[u32]) -> bool
    requires { AreWithin (length tables.now) places.now }
    ensures { result ≡ list_all (is_filled tables.now) places.now }
{
    for place in places {
        if !has_table(tables, *place) {
            return false;
        }
    }
    true
}

/// Appends those of the places that aren't in the table yet. The marks are those of its places.
pub(crate) fn append_new(
    table: &mut Vec<u32>,
    seen: &mut [bool],
    places: &[u32],
) -> Result<(), AllocError>
    requires within { AreWithin (length seen.old) places.now }
    requires marked { IsMarked seen.old table.old.items }
    ensures items { OnOk result (table.new.items ≡ fold with_new table.old.items places.now) }
    ensures marked { OnOk result (IsMarked seen.new table.new.items) }
    ensures kept { OnOk result (unmarked seen.new + length table.new.items ≡ unmarked seen.old + length table.old.items) }
    ensures len { length seen.new ≡ length seen.old }
{
    for place in places {
        let at = *place as usize;
        if !seen[at] {
            table.push(*place)?;
            seen[at] = true;
        }
    }
    Ok(())
}

// Takes the marks of the places away.
fn clear(seen: &mut [bool], table: &[u32])
    requires { IsMarked seen.old table.now }
    ensures clear { IsClear seen.new }
    ensures len { length seen.new ≡ length seen.old }
{
    for place in table {
        seen[*place as usize] = false;
    }
}

// The table of a place of whose steps each has its own.
fn join(
    alloc: Global,
    tables: &[Items<u32>],
    seen: &mut [bool],
    place: u32,
    steps: &[u32],
) -> Result<Vec<u32>, AllocError>
    requires place { place < length tables.now }
    requires within { AreWithin (length tables.now) steps.now }
    requires tables { HasTables (length tables.now) tables.now }
    requires clear { IsClear seen.old }
    requires room { length seen.old ≡ length tables.now }
    ensures table { IfOk result (λ table. table.items ≡ joined tables.now place steps.now) }
    ensures clear { OnOk result (IsClear seen.new) }
    ensures len { length seen.new ≡ length seen.old }
{
    let mut table = Vec::new(alloc);
    append_new(&mut table, seen, &[place])?;
    for step in steps {
        append_new(&mut table, seen, tables[*step as usize].as_slice())?;
    }
    clear(seen, table.as_slice());
    Ok(table)
}

// Fills the tables of the places that are ready, and gives those that aren't.
fn fill_ready(
    alloc: Global,
    steps: &[Items<u32>],
    tables: &mut [Items<u32>],
    seen: &mut [bool],
    left: &[u32],
) -> Result<Vec<u32>, AllocError>
    requires within { HasTables (length steps.now) steps.now }
    requires left { IsLeft steps.now tables.old left.now }
    requires places { AreWithin (length steps.now) left.now }
    requires clear { IsClear seen.old }
    requires room { length seen.old ≡ length steps.now }
    ensures left { IfOk result (λ waiting. IsLeft steps.now tables.new waiting.items) }
    ensures places { IfOk result (λ waiting. AreWithin (length steps.now) waiting.items) }
    ensures fewer { IfOk result (λ waiting. length waiting.items ≤ length left.now) }
    ensures stuck { IfOk result (λ waiting. length waiting.items ≡ length left.now → AreUnready steps.now tables.new waiting.items) }
    ensures clear { OnOk result (IsClear seen.new) }
    ensures room { length seen.new ≡ length seen.old }
{
    let mut waiting = Vec::new(alloc);
    for place in left {
        let at = *place as usize;
        let up = steps[at].as_slice();
        if is_ready(tables, up) {
            tables[at] = Items::from_vec(join(alloc, tables, seen, *place, up)?);
        } else {
            waiting.push(*place)?;
        }
    }
    Ok(waiting)
}

// A table without places for each place.
fn no_tables(alloc: Global, len: usize) -> Result<Vec<Items<u32>>, AllocError>
    ensures { IfOk result (λ tables. tables.items ≡ replicate len []) }
{
    let mut tables = Vec::new(alloc);
    for _ in 0..len {
        tables.push(Items::new(alloc))?;
    }
    Ok(tables)
}

// The places of a list of that length, in order.
fn all_places(alloc: Global, len: usize) -> Result<Vec<u32>, AllocError>
    requires { len < 2 ^ 32 }
    ensures { IfOk result (λ places. AreAll len places.items) }
{
    let mut places: Vec<u32> = Vec::new(alloc);
    for place in 0..len {
        places.push(place as u32)?;
    }
    Ok(places)
}

/// The tables of all places, or the places that are stuck. Each round goes over the places that have
/// no table yet, so that a place is looked at no more often than there are places above it.
pub(crate) fn tables_of(alloc: Global, steps: &[Items<u32>]) -> Result<Tables, AllocError>
    requires few { length steps.now < 2 ^ 32 }
    requires within { HasTables (length steps.now) steps.now }
    ensures { IfOk result (λ tables. TablesAre steps.now tables) }
{
    let mut tables = no_tables(alloc, steps.len())?;
    let mut seen = vec![in alloc; false; steps.len()]?;
    let mut left = all_places(alloc, steps.len())?;
    'rounds: while !left.is_empty() {
        let waiting = fill_ready(alloc, steps, &mut tables, &mut seen, &left)?;
        if waiting.len() == left.len() {
            return Ok(Tables::Stuck(waiting));
        }
        left = waiting;
    }
    Ok(Tables::Whole(tables))
}
