//! Which branches are widened.

ghost use Rattle.std.specs.Prelude.{◌≡◌, ◌≢◌, false, replicate, MatchBool, ◌||◌, ◌+◌, ◌-◌, ◌<◌, length, pos, ◌-ℤ◌, IfOk, IfErr};
ghost use Rattle.code_layout.specs.Places.{passes, is_far, widen_from, AreWidened};
ghost use Rattle.code_layout.specs.Spelled.{AreRows, IsRow, ArePlaces, place_in};

use crate::branch::is_short;
use crate::layout_fault::LayoutFault;
use crate::places::places;
use crate::row::Row;
use opcode_table::Insn;
use std::alloc::{AllocError, Global};

/// Which rows are wide, the place of each row, and behind them where the code ends.
#[derive(Drop)]
pub(crate) struct Layout {
    pub(crate) wide: Vec<bool>,
    pub(crate) places: Vec<u64>,
}

/// Whether the way from a place to another does not fit two bytes.
fn passes(from: u64, to: u64) -> bool
    ensures { result ≡ passes (pos to -ℤ pos from) }
{
    if from <= to {
        to - from > 32767
    } else {
        from - to > 32768
    }
}

/// Whether the row of this number is a branch of two bytes that leads too far.
fn is_far(i: usize, row: &Row, places: &[u64]) -> bool
    requires within { i < length places.now }
    requires leads { IsRow (length places.now - 1) row.now }
    ensures { result ≡ is_far (place_in places.now) i row.now }
{
    match row.insn {
        Insn::Branch { op, .. } => is_short(op)
            && passes(places[i], places[row.jump.to.as_slice()[0] as usize]),
        _ => false,
    }
}

/// Whether a row is wide in the next round.
fn is_wide(wide: bool, i: usize, row: &Row, places: &[u64]) -> bool
    requires within { i < length places.now }
    requires leads { IsRow (length places.now - 1) row.now }
    ensures { result ≡ (wide || is_far (place_in places.now) i row.now) }
{
    wide || is_far(i, row, places)
}

/// Which rows are wide in the next round: those that are, and those that lead too far.
fn widen(
    alloc: Global,
    rows: &[Row],
    places: &[u64],
    wide: &[bool],
) -> Result<Vec<bool>, AllocError>
    requires count { length wide.now ≡ length rows.now }
    requires within { length places.now ≡ length rows.now + 1 }
    requires leads { AreRows rows.now }
    ensures { IfOk result (λ next. next.items ≡ widen_from (place_in places.now) 0 rows.now wide.now) }
{
    let mut next = Vec::with_capacity(alloc, rows.len())?;
    for (i, row) in rows.iter().enumerate() {
        next.push(is_wide(wide[i], i, row, places))?;
    }
    Ok(next)
}

/// At first no row is wide.
fn none(alloc: Global, count: usize) -> Result<Vec<bool>, AllocError>
    ensures { IfOk result (λ wide. wide.items ≡ replicate count false) }
{
    vec![in alloc; false; count]
}

#[tactic(auto, using(crate::proofs::Rounds::same_flags, crate::proofs::Rounds::other_flags))]
/// Whether a round has widened nothing.
fn is_settled(next: &[bool], wide: &[bool]) -> bool
    ensures { MatchBool result (next.now ≡ wide.now) (next.now ≢ wide.now) }
{
    next == wide
}

/// The rows laid out: at first no branch is wide, and then each that leads too far, until none does. A wide
/// branch stays so.
pub(crate) fn widened(alloc: Global, rows: &[Row]) -> Result<Layout, LayoutFault>
    requires { AreRows rows.now }
    ensures widened { IfOk result (λ layout. AreWidened rows.now layout.wide.items) }
    ensures places { IfOk result (λ layout. ArePlaces rows.now layout.wide.items layout.places.items) }
    ensures fault { IfErr result (λ fault. fault ≡ LayoutFault.Memory) }
{
    let mut wide = none(alloc, rows.len())?;
    let mut found = places(alloc, rows, wide.as_slice())?;
    loop {
        let next = widen(alloc, rows, found.as_slice(), wide.as_slice())?;
        if is_settled(next.as_slice(), wide.as_slice()) {
            return Ok(Layout {
                wide,
                places: found,
            });
        }
        found = places(alloc, rows, next.as_slice())?;
        wide = next;
    }
}
