//! Circles of steps.

ghost use Rattle.std.specs.Prelude.{◌≡◌, ◌<◌, length, IfOk, OnOk};
ghost use Rattle.class_world.specs.Places.{HasTables, IsClear};
ghost use Rattle.class_world.specs.Above.{IsAbove, IsJudged};

use crate::tables::append_new;
use sqlite_items::Items;
use std::alloc::{AllocError, Global};

// Marks the places above the place.
fn mark_above(
    alloc: Global,
    steps: &[Items<u32>],
    place: u32,
    seen: &mut [bool],
) -> Result<(), AllocError>
    requires place { place < length steps.now }
    requires within { HasTables (length steps.now) steps.now }
    requires clear { IsClear seen.old }
    requires room { length seen.old ≡ length steps.now }
    ensures above { OnOk result (IsAbove steps.now place seen.new) }
    ensures room { length seen.new ≡ length seen.old }
{
    let mut reached: Vec<u32> = Vec::new(alloc);
    append_new(&mut reached, seen, steps[place as usize].as_slice())?;
    let mut at: usize = 0;
    'reaching: while at < reached.len() {
        let next = reached[at];
        append_new(&mut reached, seen, steps[next as usize].as_slice())?;
        at += 1;
    }
    Ok(())
}

// The marks of the places above the place.
fn marks_above(alloc: Global, steps: &[Items<u32>], place: u32) -> Result<Vec<bool>, AllocError>
    requires place { place < length steps.now }
    requires within { HasTables (length steps.now) steps.now }
    ensures { IfOk result (λ marks. IsAbove steps.now place marks.items) }
{
    let mut seen = vec![in alloc; false; steps.len()]?;
    mark_above(alloc, steps, place, &mut seen)?;
    Ok(seen)
}

/// Whether a way up from the place leads back to it.
pub(crate) fn lies_on_circle(
    alloc: Global,
    steps: &[Items<u32>],
    place: u32,
) -> Result<bool, AllocError>
    requires place { place < length steps.now }
    requires within { HasTables (length steps.now) steps.now }
    ensures { IfOk result (λ answer. IsJudged steps.now place answer) }
{
    let marks = marks_above(alloc, steps, place)?;
    Ok(marks[place as usize])
}
