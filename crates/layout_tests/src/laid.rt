//! Blocks laid out.

use crate::blocks::{NOP, add, cover, label, lay, nops, old_of, one};
use class_file::ExceptionEntry;
use code_layout::{Block, BlockEntry, BlockTarget, CodeEntry, LayoutFault, is_layable};
use opcode_table::Insn;
use std::alloc::{AllocError, Global};

const IFEQ: Insn = Insn::Branch { op: 153, offset: 0 };

const GOTO: Insn = Insn::Branch { op: 167, offset: 0 };

const JSR: Insn = Insn::Branch { op: 168, offset: 0 };

const RETURN: Insn = Insn::Plain(177);

/// A branch over 40,000 `nop`, and a `return`.
fn far(alloc: Global, branch: Insn) -> Result<[Block; 3], AllocError> {
    let branch = one(alloc, branch, &[], &[BlockTarget::Old(2)])?;
    let between = nops(alloc, 40000)?;
    Ok([branch, between, one(alloc, RETURN, &[], &[])?])
}

/// Whether the branch makes code of this length that starts so.
fn starts_so(alloc: Global, branch: Insn, length: usize, want: &[u8]) -> Result<bool, LayoutFault> {
    let blocks = far(alloc, branch)?;
    let old = old_of(alloc, 3)?;
    let code = lay(alloc, &blocks, &old)?;
    Ok(code.code.len() == length && code.code.as_slice().starts_with(want))
}

#[test]
fn far_branches_are_widened(rt: HostRuntime) -> Result<(), LayoutFault> {
    let cases: [(Insn, usize, &[u8]); 3] = [
        (GOTO, 40006, &[200, 0, 0, 156, 69, 0]),
        (JSR, 40006, &[201, 0, 0, 156, 69, 0]),
        (IFEQ, 40009, &[154, 0, 8, 200, 0, 0, 156, 69, 0]),
    ];
    for (branch, length, want) in cases {
        assert!(rt; starts_so(rt.alloc(), branch, length, want)?, "{branch:?}");
    }
    Ok(())
}

/// Two `nop` and a `tableswitch` of -1 and 0, which leads to the second `nop`, the next block and this one.
fn table_switch(alloc: Global) -> Result<Block, AllocError> {
    let to = [
        BlockTarget::Label(0),
        BlockTarget::Old(1),
        BlockTarget::Old(0),
    ];
    let insn = Insn::TableSwitch { table: 0 };
    let mut block = nops(alloc, 2)?;
    label(&mut block, 1)?;
    add(alloc, &mut block, insn, &[-1, 0], &to)?;
    Ok(block)
}

/// A `lookupswitch` of 7, which leads to the block before and to this one.
fn lookup_switch(alloc: Global) -> Result<Block, AllocError> {
    let to = [BlockTarget::Old(0), BlockTarget::Old(1)];
    one(alloc, Insn::LookupSwitch { table: 0 }, &[7], &to)
}

const SWITCHES: [u8; 44] = [
    0, 0, 170, 0, 255, 255, 255, 255, 255, 255, 255, 255, 0, 0, 0, 0, 0, 0, 0, 22, 255, 255, 255,
    254, 171, 0, 0, 0, 255, 255, 255, 232, 0, 0, 0, 1, 0, 0, 0, 7, 0, 0, 0, 0,
];

/// Whether two switches, one behind the other, are laid out so.
fn are_switches(alloc: Global, want: &[u8]) -> Result<bool, LayoutFault> {
    let blocks = [table_switch(alloc)?, lookup_switch(alloc)?];
    let old = old_of(alloc, 2)?;
    let code = lay(alloc, &blocks, &old)?;
    Ok(code.code.as_slice() == want)
}

#[test]
fn switches_are_padded_anew(rt: HostRuntime) -> Result<(), LayoutFault> {
    assert!(rt; are_switches(rt.alloc(), &SWITCHES)?);
    Ok(())
}

const OWN: BlockEntry = BlockEntry {
    start: 1,
    end: 3,
    old_range: false,
    handler: BlockTarget::Label(0),
    catch_type: 9,
};

const OLD: BlockEntry = BlockEntry {
    start: 0,
    end: 2,
    old_range: true,
    handler: BlockTarget::Old(1),
    catch_type: 8,
};

/// Three `nop` with an entry of their own, and a `return` with one whose range is of old instructions.
fn covered(alloc: Global) -> Result<[Block; 2], AllocError> {
    let mut first = nops(alloc, 3)?;
    label(&mut first, 2)?;
    cover(&mut first, OWN)?;
    let mut second = one(alloc, RETURN, &[], &[])?;
    cover(&mut second, OLD)?;
    Ok([first, second])
}

fn entry(start: u16, end: u16, handler: u16, catch_type: u16) -> ExceptionEntry {
    ExceptionEntry {
        start,
        end,
        handler,
        catch_type,
    }
}

/// Whether the covered blocks, for old code with an entry, are laid out with these.
fn has_entries(alloc: Global, want: &[ExceptionEntry]) -> Result<bool, LayoutFault> {
    let mut old = old_of(alloc, 2)?;
    old.entries.push(CodeEntry {
        start: 0,
        end: 1,
        handler: 1,
        catch_type: 0,
    })?;
    let blocks = covered(alloc)?;
    let code = lay(alloc, &blocks, &old)?;
    Ok(code.entries.as_slice() == want)
}

#[test]
fn own_entries_stand_before_old_ones(rt: HostRuntime) -> Result<(), LayoutFault> {
    let want = [entry(1, 3, 2, 9), entry(0, 4, 3, 8), entry(0, 3, 3, 0)];
    assert!(rt; has_entries(rt.alloc(), &want)?);
    Ok(())
}

const ONE: BlockEntry = BlockEntry {
    start: 0,
    end: 1,
    old_range: false,
    handler: BlockTarget::Old(0),
    catch_type: 0,
};

/// Why so many `nop` with so many entries aren't laid out.
fn fault_of(alloc: Global, count: u32, entries: u32) -> Result<Option<LayoutFault>, AllocError> {
    let mut block = nops(alloc, count)?;
    for _ in 0..entries {
        cover(&mut block, ONE)?;
    }
    let old = old_of(alloc, 1)?;
    Ok(lay(alloc, &[block], &old).err())
}

#[test]
fn bounds_of_the_format_are_kept(rt: HostRuntime) -> Result<(), AllocError> {
    let cases = [
        (65535, 0, None),
        (65536, 0, Some(LayoutFault::TooLong(65536))),
        (1, 65535, None),
        (1, 65536, Some(LayoutFault::TooManyEntries(65536))),
        (65536, 65536, Some(LayoutFault::TooLong(65536))),
    ];
    for (count, entries, fault) in cases {
        assert!(rt;
            fault_of(rt.alloc(), count, entries)? == fault,
            "{count} and {entries}"
        );
    }
    Ok(())
}

/// Whether an instruction that leads so may be laid out alone.
fn leads(alloc: Global, insn: Insn, to: &[BlockTarget]) -> Result<bool, AllocError> {
    let block = one(alloc, insn, &[], to)?;
    let old = old_of(alloc, 1)?;
    Ok(is_layable(&[block], &old))
}

#[test]
fn what_leads_nowhere_is_not_layable(rt: HostRuntime) -> Result<(), AllocError> {
    let cases: [(Insn, &[BlockTarget], bool); 7] = [
        (NOP, &[], true),
        (GOTO, &[BlockTarget::Old(0)], true),
        (GOTO, &[BlockTarget::Old(1)], false),
        (GOTO, &[BlockTarget::Label(0)], false),
        (GOTO, &[BlockTarget::Miss], false),
        (GOTO, &[], false),
        (Insn::Plain(203), &[], false),
    ];
    for (insn, to, want) in cases {
        assert!(rt; leads(rt.alloc(), insn, to)? == want, "{insn:?} to {to:?}");
    }
    Ok(())
}
