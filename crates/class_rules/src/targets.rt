//! Where branches and exception tables lead.

ghost use Rattle.std.specs.Prelude.{◌≡◌, ◌<◌, ◌^◌, ◌+ℤ◌, pos, ℕ, List, length, map};
ghost use Rattle.std.specs.List.{All, list_all};
ghost use Rattle.opcode_table.specs.Spelling.{HasTable, HasPairs};
ghost use Rattle.opcode_table.specs.Decoding as switch;
ghost use Rattle.class_file.specs.Code as rule;
ghost use Rattle.class_rules.specs.Instructions.{as_placed, StandsIn};
ghost use Rattle.class_rules.specs.Starts.{Marks};

use crate::instructions::Placed;
use crate::starts::Starts;
use class_file::ExceptionEntry;
use opcode_table::{Insn, pair_count, pair_offset, switch_default, table_count, table_offset};

// Whether each offset in the table of a `tableswitch` leads to an instruction.
fn table_leads_well(code: &[u8], starts: &Starts, pc: u32, table: u32) -> bool
    requires small { length code.now < 2 ^ 16 }
    requires place { pc < 2 ^ 16 }
    requires there { HasTable code.now table }
    ensures { (insns : List rule.Placed) → Marks starts.now insns → result ≡ list_all (λ offset. rule.is_start_at insns (pos pc +ℤ offset)) (rule.numbered (switch.table_count code.now table) (switch.table_offset code.now table)) }
{
    for i in 0..table_count(code, table) {
        if !starts.is_start_from(pc, table_offset(code, table, i)) {
            return false;
        }
    }
    true
}

// Whether each offset in the table of a `lookupswitch` leads to an instruction.
fn pairs_lead_well(code: &[u8], starts: &Starts, pc: u32, table: u32) -> bool
    requires place { pc < 2 ^ 16 }
    requires there { HasPairs code.now table }
    ensures { (insns : List rule.Placed) → Marks starts.now insns → result ≡ list_all (λ offset. rule.is_start_at insns (pos pc +ℤ offset)) (rule.numbered (switch.pair_count code.now table) (switch.pair_offset code.now table)) }
{
    for i in 0..pair_count(code, table) {
        if !starts.is_start_from(pc, pair_offset(code, table, i)) {
            return false;
        }
    }
    true
}

fn table_switch_leads_well(code: &[u8], starts: &Starts, pc: u32, table: u32) -> bool
    requires small { length code.now < 2 ^ 16 }
    requires place { pc < 2 ^ 16 }
    requires there { HasTable code.now table }
    ensures { (insns : List rule.Placed) → Marks starts.now insns → result ≡ list_all (λ offset. rule.is_start_at insns (pos pc +ℤ offset)) (rule.offsets code.now (Insn.TableSwitch table)) }
{
    starts.is_start_from(pc, switch_default(code, table))
        && table_leads_well(code, starts, pc, table)
}

fn lookup_switch_leads_well(code: &[u8], starts: &Starts, pc: u32, table: u32) -> bool
    requires place { pc < 2 ^ 16 }
    requires there { HasPairs code.now table }
    ensures { (insns : List rule.Placed) → Marks starts.now insns → result ≡ list_all (λ offset. rule.is_start_at insns (pos pc +ℤ offset)) (rule.offsets code.now (Insn.LookupSwitch table)) }
{
    starts.is_start_from(pc, switch_default(code, table))
        && pairs_lead_well(code, starts, pc, table)
}

// Whether each place where the instruction leads has an instruction.
fn leads_well(code: &[u8], starts: &Starts, placed: &Placed) -> bool
    requires small { length code.now < 2 ^ 16 }
    requires there { StandsIn code.now placed.now }
    ensures { (insns : List rule.Placed) → Marks starts.now insns → result ≡ rule.leads_well code.now insns (as_placed placed.now) }
{
    match placed.insn {
        Insn::Branch { offset, .. } => starts.is_start_from(placed.pc, offset),
        Insn::TableSwitch { table } => table_switch_leads_well(code, starts, placed.pc, table),
        Insn::LookupSwitch { table } => lookup_switch_leads_well(code, starts, placed.pc, table),
        _ => true,
    }
}

/// The place of the first branch or switch that leads to a place without an instruction (JVMS 4.8.1).
pub(crate) fn branch_fault(code: &[u8], starts: &Starts, insns: &[Placed]) -> Option<u32>
    requires small { length code.now < 2 ^ 16 }
    requires stand { All (StandsIn code.now) insns.now }
    requires marked { Marks starts.now (map as_placed insns.now) }
    ensures { result ≡ rule.first_failing (rule.leads_well code.now (map as_placed insns.now)) (map as_placed insns.now) }
{
    for placed in insns {
        if !leads_well(code, starts, placed) {
            return Some(placed.pc);
        }
    }
    None
}

// The first of the start, the end and the handler at which no instruction stands.
fn stray_in(code: &[u8], starts: &Starts, entry: &ExceptionEntry) -> Option<u32>
    ensures { (insns : List rule.Placed) → Marks starts.now insns → result ≡ rule.stray_in code.now insns entry.now }
{
    let end = u32::from(entry.end);
    if !starts.is_start(u32::from(entry.start)) {
        Some(u32::from(entry.start))
    } else if !(starts.is_start(end) || end as usize == code.len()) {
        Some(end)
    } else if !starts.is_start(u32::from(entry.handler)) {
        Some(u32::from(entry.handler))
    } else {
        None
    }
}

/// The first place of the exception table at which no instruction stands (JVMS 4.7.3). A range may end
/// where the code does.
pub(crate) fn table_fault(code: &[u8], starts: &Starts, entries: &[ExceptionEntry]) -> Option<u32>
    ensures { (insns : List rule.Placed) → Marks starts.now insns → result ≡ rule.first_stray code.now insns entries.now }
{
    for entry in entries {
        if let Some(place) = stray_in(code, starts, entry) {
            return Some(place);
        }
    }
    None
}
