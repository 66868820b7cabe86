//! Where each instruction is laid.

ghost use Rattle.std.specs.Prelude.{◌≡◌, ◌+◌, ◌*◌, length, IfSome, IfOk, IfErr};
ghost use Rattle.opcode_table.specs.Decoding.{table_place};
ghost use Rattle.code_layout.specs.Places.{behind};
ghost use Rattle.code_layout.specs.Spelled.{ArePlaces};

use crate::branch::branch_size;
use crate::layout_fault::LayoutFault;
use crate::row::Row;
use opcode_table::{Insn, length_of};
use std::alloc::Global;

/// The place behind a switch, whose table has a head of so many bytes and then so many for each key
/// (JVMS 6.4).
fn behind_switch(pc: u64, head: u64, each: u64, keys: usize) -> Option<u64>
    ensures { IfSome result (λ end. end ≡ table_place pc + (head + each * keys)) }
{
    let table = (pc / 4 + 1).checked_mul(4)?;
    let body = each.checked_mul(keys as u64)?;
    table.checked_add(head.checked_add(body)?)
}

/// The place behind a row.
fn behind(row: &Row, wide: bool, pc: u64) -> Option<u64>
    ensures { IfSome result (λ end. end ≡ behind wide pc row.now) }
{
    match row.insn {
        Insn::TableSwitch { .. } => behind_switch(pc, 12, 4, row.jump.keys.len()),
        Insn::LookupSwitch { .. } => behind_switch(pc, 8, 8, row.jump.keys.len()),
        Insn::Branch { op, .. } => pc.checked_add(branch_size(wide, op)),
        insn => pc.checked_add(length_of(&insn).into()),
    }
}

/// The place of each row, and then that of the end.
pub(crate) fn places(alloc: Global, rows: &[Row], wide: &[bool]) -> Result<Vec<u64>, LayoutFault>
    requires { length wide.now ≡ length rows.now }
    ensures found { IfOk result (λ places. ArePlaces rows.now wide.now places.items) }
    ensures memory { IfErr result (λ fault. fault ≡ LayoutFault.Memory) }
{
    let mut places = Vec::new(alloc);
    let mut pc = 0;
    places.push(pc)?;
    for (i, row) in rows.iter().enumerate() {
        match behind(row, wide[i], pc) {
            Some(end) => pc = end,
            None => return Err(LayoutFault::Memory),
        }
        places.push(pc)?;
    }
    Ok(places)
}
