//! Whether blocks may be laid out.

ghost use Rattle.std.specs.Prelude.{◌≡◌, ◌≢◌, ◌≤◌, ◌<◌, ◌↔◌, length, pos, ◌+ℤ◌, ◌<ℤ◌, IsTrue, MatchBool};
ghost use Rattle.std.specs.List.{AllByRecursion, AllZip};
ghost use Rattle.opcode_table.specs.Spelling.{IsShaped};
ghost use Rattle.code_layout.specs.declared.method_code.Jump.{Jump};
ghost use Rattle.code_layout.specs.declared.method_code.LineTable.{LineTable};
ghost use Rattle.code_layout.specs.declared.method_code.VariableTable.{VariableTable};
ghost use Rattle.code_layout.specs.declared.block.BlockTarget.{BlockTarget};
ghost use Rattle.code_layout.specs.Spelled.{HasTables};
ghost use Rattle.code_layout.specs.Blocks.{Ascend, Count, HasJump, Leads, IsTargetOf, IsEntryOf, IsBlock, IsOldEntry, IsLine, IsVariable, AreLayable};

use crate::block::{Block, BlockEntry, BlockTarget};
use crate::method_code::{CodeEntry, Jump, Line, LineTable, MethodCode, Variable, VariableTable};
use opcode_table::{Form, Insn, form_of};

/// Whether the instruction stands in some code, but for its offset or table.
fn is_shaped(insn: &Insn) -> bool
    ensures { IsTrue result ↔ IsShaped insn.now }
{
    match *insn {
        Insn::Plain(op) => match form_of(op) {
            Some(Form::Plain) => true,
            _ => false,
        },
        Insn::Local { op, index, wide } => match form_of(op) {
            Some(Form::Local) => wide || index < 256,
            _ => false,
        },
        Insn::Iinc { index, by, wide } => wide || (index < 256 && -128 <= by && by < 128),
        Insn::Pool { op, index } => match form_of(op) {
            Some(Form::NarrowPool) => index < 256,
            Some(Form::Pool) => true,
            _ => false,
        },
        Insn::Branch { op, .. } => match form_of(op) {
            Some(Form::Branch | Form::WideBranch) => true,
            _ => false,
        },
        Insn::Bipush(_value) => true,
        Insn::Sipush(_value) => true,
        Insn::Interface {
            index: _index,
            count: _count,
            last: _last,
        } => true,
        Insn::NewArray(_code) => true,
        Insn::Multi {
            index: _index,
            dims: _dims,
        } => true,
        Insn::TableSwitch { .. } | Insn::LookupSwitch { .. } => true,
    }
}

/// Whether a key is so far above the lowest.
fn is_above(low: i32, i: usize, key: i32) -> bool
    ensures { MatchBool result (key ≡ low +ℤ pos i) (key ≢ low +ℤ pos i) }
{
    let above = i64::from(key) - i64::from(low);
    above >= 0 && above.unsigned_abs() == i as u64
}

/// Whether the keys are each number from the first to the last.
fn count(keys: &[i32]) -> bool
    ensures { MatchBool result (Count keys.now) (¬ (Count keys.now)) }
{
    if keys.is_empty() {
        return false;
    }
    for (i, key) in keys.iter().enumerate() {
        if !is_above(keys[0], i, *key) {
            return false;
        }
    }
    true
}

/// Whether a target is there.
fn is_target(count: usize, block: &Block, target: BlockTarget) -> bool
    ensures { IsTrue result ↔ IsTargetOf count block.now target }
{
    match target {
        BlockTarget::Label(label) => (label as usize) < block.labels.len(),
        BlockTarget::Old(number) => (number as usize) < count,
        BlockTarget::Miss => false,
    }
}

fn are_targets(count: usize, block: &Block, to: &[BlockTarget]) -> bool
    ensures { IsTrue result ↔ AllByRecursion (IsTargetOf count block.now) to.now }
{
    to.iter().all(|target| is_target(count, block, *target))
}

/// Whether the labels are positions in the block.
fn are_labels(labels: &[u32], count: usize) -> bool
    ensures { IsTrue result ↔ AllByRecursion (λ position. position ≤ count) labels.now }
{
    labels.iter().all(|label| *label as usize <= count)
}

/// Whether what an old entry names is there.
fn is_old_entry(count: usize, entry: &CodeEntry) -> bool
    ensures { IsTrue result ↔ IsOldEntry count entry.now }
{
    entry.start as usize <= count && entry.end as usize <= count && (entry.handler as usize) < count
}

fn are_old_entries(count: usize, entries: &[CodeEntry]) -> bool
    ensures { IsTrue result ↔ AllByRecursion (IsOldEntry count) entries.now }
{
    entries.iter().all(|entry| is_old_entry(count, entry))
}

fn is_below(key: i32, next: i32) -> bool
    ensures { MatchBool result (key <ℤ next) (¬ (key <ℤ next)) }
{
    key < next
}

/// Whether each key is below the next.
fn ascend(keys: &[i32]) -> bool
    ensures { MatchBool result (Ascend keys.now) (¬ (Ascend keys.now)) }
{
    for i in 1..keys.len() {
        if !is_below(keys[i - 1], keys[i]) {
            return false;
        }
    }
    true
}

/// Whether the instruction is shaped, and the jump fits it.
fn leads(insn: &Insn, jump: &Jump<BlockTarget>) -> bool
    ensures { MatchBool result (Leads insn.now jump.now) (¬ (Leads insn.now jump.now)) }
{
    is_shaped(insn) && has_jump(insn, jump)
}

/// Whether the jump fits the instruction.
fn has_jump(insn: &Insn, jump: &Jump<BlockTarget>) -> bool
    ensures { IsTrue result ↔ HasJump insn.now jump.now }
{
    let keys = jump.keys.as_slice();
    let targets = jump.to.len();
    match insn {
        Insn::Branch { .. } => keys.is_empty() && targets == 1,
        Insn::TableSwitch { .. } => count(keys) && targets == keys.len() + 1,
        Insn::LookupSwitch { .. } => ascend(keys) && targets == keys.len() + 1,
        _ => keys.is_empty() && targets == 0,
    }
}

/// Whether each instruction has a jump that fits it.
fn all_lead(insns: &[Insn], jumps: &[Jump<BlockTarget>]) -> bool
    ensures { MatchBool result (AllZip Leads insns.now jumps.now) (¬ (AllZip Leads insns.now jumps.now)) }
{
    if insns.len() != jumps.len() {
        return false;
    }
    for (i, insn) in insns.iter().enumerate() {
        if !leads(insn, &jumps[i]) {
            return false;
        }
    }
    true
}

/// Whether what an entry of a block names is there.
fn is_entry(count: usize, block: &Block, entry: &BlockEntry) -> bool
    ensures { IsTrue result ↔ IsEntryOf count block.now entry.now }
{
    let limit = if entry.old_range {
        count
    } else {
        block.insns.len()
    };
    entry.start as usize <= limit
        && entry.end as usize <= limit
        && is_target(count, block, entry.handler)
}

fn are_entries(count: usize, block: &Block, entries: &[BlockEntry]) -> bool
    ensures { IsTrue result ↔ AllByRecursion (IsEntryOf count block.now) entries.now }
{
    entries.iter().all(|entry| is_entry(count, block, entry))
}

fn are_jumps(count: usize, block: &Block, jumps: &[Jump<BlockTarget>]) -> bool
    ensures { IsTrue result ↔ AllByRecursion (λ (j : Jump BlockTarget). AllByRecursion (IsTargetOf count block.now) j.to) jumps.now }
{
    jumps
        .iter()
        .all(|jump| are_targets(count, block, jump.to.as_slice()))
}

/// Whether a block may be laid out.
fn is_block(count: usize, block: &Block) -> bool
    ensures { MatchBool result (IsBlock count block.now) (¬ (IsBlock count block.now)) }
{
    all_lead(block.insns.as_slice(), block.targets.as_slice())
        && are_jumps(count, block, block.targets.as_slice())
        && are_labels(block.labels.as_slice(), block.insns.len())
        && are_entries(count, block, block.entries.as_slice())
}

/// Whether the rows of lines name old instructions.
fn are_lines(count: usize, rows: &[Line]) -> bool
    ensures { IsTrue result ↔ AllByRecursion (IsLine count) rows.now }
{
    rows.iter().all(|row| row.start as usize <= count)
}

/// Whether a local variable's range is one of old instructions.
fn is_variable(count: usize, row: &Variable) -> bool
    ensures { IsTrue result ↔ IsVariable count row.now }
{
    row.start <= row.end && row.end as usize <= count
}

fn are_variables(count: usize, rows: &[Variable]) -> bool
    ensures { IsTrue result ↔ AllByRecursion (IsVariable count) rows.now }
{
    rows.iter().all(|row| is_variable(count, row))
}

/// Whether each block may be laid out.
fn are_blocks(count: usize, blocks: &[Block]) -> bool
    ensures { MatchBool result (AllByRecursion (IsBlock count) blocks.now) (¬ (AllByRecursion (IsBlock count) blocks.now)) }
{
    for block in blocks {
        if !is_block(count, block) {
            return false;
        }
    }
    true
}

fn are_line_tables(count: usize, tables: &[LineTable]) -> bool
    ensures { IsTrue result ↔ AllByRecursion (λ (t : LineTable). AllByRecursion (IsLine count) t.rows) tables.now }
{
    tables
        .iter()
        .all(|table| are_lines(count, table.rows.as_slice()))
}

fn are_variable_tables(count: usize, tables: &[VariableTable]) -> bool
    ensures { IsTrue result ↔ AllByRecursion (λ (t : VariableTable). AllByRecursion (IsVariable count) t.rows) tables.now }
{
    tables
        .iter()
        .all(|table| are_variables(count, table.rows.as_slice()))
}

/// Whether what the old tables name is there.
fn are_tables(count: usize, old: &MethodCode) -> bool
    ensures { IsTrue result ↔ HasTables count old.now }
{
    are_old_entries(count, old.entries.as_slice())
        && are_line_tables(count, old.lines.as_slice())
        && are_variable_tables(count, old.variables.as_slice())
}

/// Whether the blocks may be laid out in the place of old code: there is one for each instruction, and
/// what they and the old tables name is there.
pub fn is_layable(blocks: &[Block], old: &MethodCode) -> bool
    ensures { IsTrue result ↔ AreLayable blocks.now old.now }
{
    let count = blocks.len();
    count == old.insns.len() && are_blocks(count, blocks) && are_tables(count, old)
}
