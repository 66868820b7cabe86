//! The first place at which a method's code is wrong.

ghost use Rattle.std.specs.Prelude.{◌≡◌, ◌<◌, ◌^◌, Ok, length, map, IfOk};
ghost use Rattle.std.specs.List.{All};
ghost use Rattle.class_file.specs.Code as rule;
ghost use Rattle.class_rules.specs.Instructions.{as_placed, StandsIn};

use crate::instructions::{Placed, instructions};
use crate::operands::operand_fault;
use crate::starts::Starts;
use crate::targets::{branch_fault, table_fault};
use class_file::{CodeAttr, PoolEntry};
use opcode_table::CodeFault;
use std::alloc::{AllocError, Global};

fn place_of(fault: CodeFault) -> u32
    ensures { result ≡ rule.place_of fault }
{
    match fault {
        CodeFault::Opcode(pc, _)
        | CodeFault::Cut(pc)
        | CodeFault::Wide(pc)
        | CodeFault::Switch(pc) => pc,
    }
}

// The first wrong place of code that is cut into these instructions.
fn fault_among(
    alloc: Global,
    major: u16,
    pool: &[PoolEntry],
    code: &CodeAttr,
    insns: &[Placed],
) -> Result<Option<u32>, AllocError>
    requires small { length code.now.code < 2 ^ 16 }
    requires stand { All (StandsIn code.now.code) insns.now }
    ensures { IfOk result (λ place. place ≡ rule.fault_among major pool.now code.now (Ok (map as_placed insns.now))) }
{
    let bytes = code.code.as_slice();
    if let Some(pc) = operand_fault(major, pool, insns) {
        return Ok(Some(pc));
    }
    let starts = Starts::mark(alloc, bytes.len(), insns)?;
    if let Some(pc) = branch_fault(bytes, &starts, insns) {
        return Ok(Some(pc));
    }
    Ok(table_fault(bytes, &starts, code.entries.as_slice()))
}

/// Where the code of a class of this major version and pool is wrong, if it is (JVMS 4.7.3, 4.8.1),
/// in time linear in the code: at 0 where it is empty or longer than 65,535 bytes, else at the first
/// place without an instruction, else at the first instruction with a wrong operand, else at the first
/// branch to a place without an instruction, else at such a place of the exception table.
pub fn code_fault(
    alloc: Global,
    major: u16,
    pool: &[PoolEntry],
    code: &CodeAttr,
) -> Result<Option<u32>, AllocError>
    ensures { IfOk result (λ place. place ≡ rule.code_fault major pool.now code.now) }
{
    let bytes = code.code.as_slice();
    if !(1..0x10000).contains(&bytes.len()) {
        return Ok(Some(0));
    }
    match instructions(alloc, bytes)? {
        Ok(insns) => fault_among(alloc, major, pool, code, insns.as_slice()),
        Err(fault) => Ok(Some(place_of(fault))),
    }
}
