//! Where instructions lead.

ghost use Rattle.std.specs.Prelude.{◌≡◌, ◌<◌, ◌≤◌, ◌^◌, length, slice_get};
ghost use Rattle.opcode_table.specs.Spelling.{HasSwitch, HasTable, HasPairs};
ghost use Rattle.opcode_table.specs.Decoding.{table_count, table_offset, pair_count, pair_offset};
ghost use Rattle.class_file.specs.Code.{numbered, offsets};
ghost use Rattle.class_machine.specs.ClassFiles as machine;

use opcode_table::{Insn, pair_count, pair_offset, switch_default, table_count, table_offset};

/// A place past all code.
pub(crate) const NOWHERE: u32 = 65536;

// The offset for the number that is `i` above the lowest.
fn range_offset(code: &[u8], table: u32, i: u32) -> Option<i32>
    requires small { length code.now < 2 ^ 16 }
    requires there { HasTable code.now table }
    ensures { result ≡ slice_get (numbered (table_count code.now table) (table_offset code.now table)) i }
{
    if i < table_count(code, table) {
        Some(table_offset(code, table, i))
    } else {
        None
    }
}

// The offset of pair `i`.
fn pairs_offset(code: &[u8], table: u32, i: u32) -> Option<i32>
    requires { HasPairs code.now table }
    ensures { result ≡ slice_get (numbered (pair_count code.now table) (pair_offset code.now table)) i }
{
    if i < pair_count(code, table) {
        Some(pair_offset(code, table, i))
    } else {
        None
    }
}

/// The distance to target number `i` of the instruction, if it has one: of a switch the default's
/// first.
pub(crate) fn offset_at(code: &[u8], insn: Insn, i: u32) -> Option<i32>
    requires small { length code.now < 2 ^ 16 }
    requires there { HasSwitch code.now insn }
    ensures { result ≡ slice_get (offsets code.now insn) i }
{
    match (insn, i) {
        (Insn::Branch { offset, .. }, 0) => Some(offset),
        (Insn::TableSwitch { table } | Insn::LookupSwitch { table }, 0) => {
            Some(switch_default(code, table))
        }
        (Insn::TableSwitch { table }, _) => range_offset(code, table, i - 1),
        (Insn::LookupSwitch { table }, _) => pairs_offset(code, table, i - 1),
        _ => None,
    }
}

/// The place at that distance from another, or one past all code where there is none.
pub(crate) fn target_from(pc: u32, offset: Option<i32>) -> u32
    requires { pc < 2 ^ 16 }
    ensures { result ≡ machine.target_from pc offset }
{
    match offset {
        Some(offset) => u32::try_from(i64::from(pc) + i64::from(offset)).unwrap_or(NOWHERE),
        None => NOWHERE,
    }
}
