//! Blocks laid out as code.

ghost use Rattle.std.specs.Prelude.{◌≡◌, ℕ, ◌+◌, ◌*◌, ◌^◌, ◌<◌, ◌≤◌, length, map, IfOk, IfErr, IfSome};
ghost use Rattle.code_layout.specs.declared.block.Block.{Block};
ghost use Rattle.code_layout.specs.Blocks.{AreLayable, rows};
ghost use Rattle.code_layout.specs.Places.{AreWidened, end_of};
ghost use Rattle.code_layout.specs.Laid.{IsLaidOut, IsLayoutFault, IsLength, most_bytes, switches, own_count, entry_count, greatest};
ghost use Rattle.code_layout.specs.Spelled.{AreStarts, ArePlaces, HaveKeys};

use crate::block::Block;
use crate::laid_bytes::laid_bytes;
use crate::laid_tables::{laid_attributes, laid_entries};
use crate::layout_fault::LayoutFault;
use crate::method_code::MethodCode;
use crate::row::{Row, rows, starts};
use crate::widening::{Layout, widened};
use class_file::CodeAttr;
use sqlite_items::Items;
use std::alloc::{AllocError, Global};

/// The most bytes of code and the most entries of an exception table (JVMS 4.10).
const MOST: u64 = 65535;

/// How many entries the exception table has, the blocks' own and the old ones, if 64 bits count them.
fn entry_count(blocks: &[Block], old: &MethodCode) -> Option<u64>
    ensures { IfSome result (λ count. count ≡ entry_count blocks.now old.now) }
{
    let mut count = old.entries.len() as u64;
    for block in blocks {
        match count.checked_add(block.entries.len() as u64) {
            Some(more) => count = more,
            None => return None,
        }
    }
    Some(count)
}

/// The room for operands: the greatest of the old one and the blocks'.
fn greatest_stack(blocks: &[Block], old: &MethodCode) -> u16
    ensures { result ≡ greatest old.now.max_stack (map (λ (b : Block). b.stack) blocks.now) }
{
    let mut stack = old.max_stack;
    for block in blocks {
        stack = stack.max(block.stack);
    }
    stack
}

/// The number of local variables: the greatest of the old one and the blocks'.
fn greatest_locals(blocks: &[Block], old: &MethodCode) -> u16
    ensures { result ≡ greatest old.now.max_locals (map (λ (b : Block). b.locals) blocks.now) }
{
    let mut locals = old.max_locals;
    for block in blocks {
        locals = locals.max(block.locals);
    }
    locals
}

/// The code of the blocks, whose rows have these places, and whose length and number of entries fit.
fn laid(
    alloc: Global,
    blocks: &[Block],
    old: &MethodCode,
    starts: &[u32],
    all: &[Row],
    layout: &Layout,
) -> Result<CodeAttr, AllocError>
    requires layable { AreLayable blocks.now old.now }
    requires starts { AreStarts blocks.now starts.now }
    requires rows { all.now ≡ rows blocks.now }
    requires keys { HaveKeys all.now }
    requires widened { AreWidened all.now layout.now.wide.items }
    requires places { ArePlaces all.now layout.now.wide.items layout.now.places.items }
    requires fits { end_of all.now layout.now.wide.items < 2 ^ 16 }
    requires few { entry_count blocks.now old.now < 2 ^ 16 }
    ensures laid { IfOk result (IsLaidOut blocks.now old.now) }
    ensures few { IfOk result (λ code. length code.entries ≡ own_count blocks.now + length old.now.entries) }
{
    let places = layout.places.as_slice();
    let code = laid_bytes(alloc, all, layout.wide.as_slice(), places)?;
    let entries = laid_entries(alloc, starts, places, blocks, old.entries.as_slice())?;
    let lines = old.lines.as_slice();
    let variables = old.variables.as_slice();
    let attributes = laid_attributes(alloc, starts, places, blocks, lines, variables)?;
    Ok(CodeAttr {
        max_stack: greatest_stack(blocks, old),
        max_locals: greatest_locals(blocks, old),
        code: Items::from_vec(code),
        entries: Items::from_vec(entries),
        attributes: Items::from_vec(attributes),
    })
}

/// The code of the blocks, or why it does not fit.
fn code_or_fault(alloc: Global, blocks: &[Block], old: &MethodCode) -> Result<CodeAttr, LayoutFault>
    requires { AreLayable blocks.now old.now }
    ensures laid { IfOk result (IsLaidOut blocks.now old.now) }
    ensures fault { IfErr result (IsLayoutFault blocks.now old.now) }
    ensures few { IfOk result (λ code. length code.entries ≡ own_count blocks.now + length old.now.entries) }
{
    let starts = starts(alloc, blocks)?;
    let rows = rows(alloc, starts.as_slice(), blocks)?;
    let layout = widened(alloc, rows.as_slice())?;
    let length = layout.places.as_slice()[rows.len()];
    if length > MOST {
        return Err(LayoutFault::TooLong(length));
    }
    match entry_count(blocks, old) {
        Some(count) => {
            if count > MOST {
                return Err(LayoutFault::TooManyEntries(count));
            }
        }
        None => return Err(LayoutFault::Memory),
    }
    let code = laid(
        alloc,
        blocks,
        old,
        starts.as_slice(),
        rows.as_slice(),
        &layout,
    )?;
    Ok(code)
}

/// The code that the blocks are laid out as, one behind the other, each in the place of the old
/// instruction of its number (JVMS 4.7.3).
///
/// A branch whose offset passes 16 bits is widened: `goto` to `goto_w`, `jsr` to `jsr_w`, and a test to
/// the opposite test over a `goto_w`. Switches are padded anew. The blocks' own entries of the exception
/// table stand before the old ones, whose ranges cover whole blocks. The rows of lines and of local
/// variables follow their blocks. The greatest room and number of locals count.
///
/// # Errors
/// `TooLong` with the length in bytes, if it is more than 65535, else `TooManyEntries` with the number
/// of entries, if it is more than 65535. `Memory`, also where 32 bits do not count the instructions or
/// 64 bits the bytes or the entries.
pub fn lay_out(alloc: Global, blocks: &[Block], old: &MethodCode) -> Result<CodeAttr, LayoutFault>
    requires { AreLayable blocks.now old.now }
    ensures laid { IfOk result (IsLaidOut blocks.now old.now) }
    // Which fault: that of the length comes first.
    ensures fault { IfErr result (IsLayoutFault blocks.now old.now) }
    // The rule of widening gives the blocks one length.
    ensures one { (n m : ℕ) → IsLength blocks.now n → IsLength blocks.now m → n ≡ m }
    // It is no more than the bytes of the blocks with every branch widened, and three for each switch.
    ensures short { (n : ℕ) → IsLength blocks.now n → n ≤ most_bytes blocks.now + 3 * switches blocks.now }
    ensures few { IfOk result (λ code. length code.entries ≡ own_count blocks.now + length old.now.entries) }
{
    code_or_fault(alloc, blocks, old)
}
