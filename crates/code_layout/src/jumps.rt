//! Where instructions lead, by the numbers of instructions.

ghost use Rattle.std.specs.Prelude.{◌≡◌, ◌<◌, ◌^◌, length, pos, ◌+ℤ◌, FitsSigned, IfOk, IfErr};
ghost use Rattle.std.specs.Int.{w32};
ghost use Rattle.std.specs.List.{AllZip, AllByRecursion, Any};
ghost use Rattle.opcode_table.specs.Spelling.{HasSwitch, HasTable, HasPairs};
ghost use Rattle.class_file.specs.Code.{offsets};
ghost use Rattle.opcode_table.specs.declared.insn.Insn.{Insn};
ghost use Rattle.code_layout.specs.declared.walk.Step.{Step};
ghost use Rattle.code_layout.specs.Apart.{keys_of};
ghost use Rattle.code_layout.specs.Numbers.{start_by, number_at, IsTarget, IsAstray, IsJump, LeadsAstray, FirstAstray, FaultIs};

use crate::fault::TakeApartFault;
use crate::method_code::Jump;
use crate::walk::Step;
use opcode_table::{
    Insn, pair_count, pair_key, pair_offset, switch_default, table_count, table_low, table_offset,
};
use sqlite_items::Items;
use std::alloc::{AllocError, Global};

#[tactic(auto, using(crate::proofs::Numbered::numbered_more))]
/// The offsets of a `tableswitch`: first the default's.
fn table_offsets(alloc: Global, code: &[u8], table: u32) -> Result<Vec<i32>, AllocError>
    requires small { length code.now < 2 ^ 16 }
    requires there { HasTable code.now table }
    ensures { IfOk result (λ v. v.items ≡ offsets code.now (Insn.TableSwitch table)) }
{
    let mut offsets = Vec::new(alloc);
    offsets.push(switch_default(code, table))?;
    for i in 0..table_count(code, table) {
        offsets.push(table_offset(code, table, i))?;
    }
    Ok(offsets)
}

#[tactic(auto, using(crate::proofs::Numbered::numbered_more))]
/// The offsets of a `lookupswitch`: first the default's.
fn pair_offsets(alloc: Global, code: &[u8], table: u32) -> Result<Vec<i32>, AllocError>
    requires { HasPairs code.now table }
    ensures { IfOk result (λ v. v.items ≡ offsets code.now (Insn.LookupSwitch table)) }
{
    let mut distances = Vec::new(alloc);
    distances.push(switch_default(code, table))?;
    for i in 0..pair_count(code, table) {
        distances.push(pair_offset(code, table, i))?;
    }
    Ok(distances)
}

/// The distances from an instruction to where it may lead.
fn offsets(alloc: Global, code: &[u8], insn: Insn) -> Result<Vec<i32>, AllocError>
    requires small { length code.now < 2 ^ 16 }
    requires there { HasSwitch code.now insn }
    ensures { IfOk result (λ v. v.items ≡ offsets code.now insn) }
{
    match insn {
        Insn::Branch { offset, .. } => Vec::from_slice(alloc, &[offset]),
        Insn::TableSwitch { table } => table_offsets(alloc, code, table),
        Insn::LookupSwitch { table } => pair_offsets(alloc, code, table),
        _ => Ok(Vec::new(alloc)),
    }
}

/// The key that is so far above the lowest.
fn key_above(low: i32, i: u32) -> i32
    requires { FitsSigned w32 (low +ℤ pos i) }
    ensures { result ≡ low +ℤ pos i }
{
    (i64::from(low) + i64::from(i)) as i32
}

#[tactic(auto, using(crate::proofs::Numbered::numbered_more))]
/// The keys of a `tableswitch`.
fn table_keys(alloc: Global, code: &[u8], table: u32) -> Result<Items<i32>, AllocError>
    requires small { length code.now < 2 ^ 16 }
    requires there { HasTable code.now table }
    ensures { IfOk result (λ keys. keys ≡ keys_of code.now (Insn.TableSwitch table)) }
{
    let low = table_low(code, table);
    let mut keys = Vec::new(alloc);
    for i in 0..table_count(code, table) {
        keys.push(key_above(low, i))?;
    }
    Ok(Items::from_vec(keys))
}

#[tactic(auto, using(crate::proofs::Numbered::numbered_more))]
/// The keys of a `lookupswitch`.
fn pair_keys(alloc: Global, code: &[u8], table: u32) -> Result<Items<i32>, AllocError>
    requires { HasPairs code.now table }
    ensures { IfOk result (λ keys. keys ≡ keys_of code.now (Insn.LookupSwitch table)) }
{
    let mut keys = Vec::new(alloc);
    for i in 0..pair_count(code, table) {
        keys.push(pair_key(code, table, i))?;
    }
    Ok(Items::from_vec(keys))
}

/// The keys of an instruction, if it is a switch.
fn keys(alloc: Global, code: &[u8], insn: Insn) -> Result<Items<i32>, AllocError>
    requires small { length code.now < 2 ^ 16 }
    requires there { HasSwitch code.now insn }
    ensures { IfOk result (λ keys. keys ≡ keys_of code.now insn) }
{
    match insn {
        Insn::TableSwitch { table } => table_keys(alloc, code, table),
        Insn::LookupSwitch { table } => pair_keys(alloc, code, table),
        _ => Ok(Items::new(alloc)),
    }
}

/// The number of the instruction that begins at a place.
pub(crate) fn start_at(numbers: &[Option<u32>], place: usize) -> Option<u32>
    ensures { result ≡ start_by numbers.now place }
{
    if place < numbers.len() {
        numbers[place]
    } else {
        None
    }
}

/// The number of the instruction at a distance.
fn target(numbers: &[Option<u32>], pc: u32, offset: i32) -> Option<u32>
    ensures { result ≡ number_at numbers.now (pos pc +ℤ offset) }
{
    let place = i64::from(pc) + i64::from(offset);
    if place < 0 {
        return None;
    }
    start_at(numbers, place as usize)
}

/// The numbers of the instructions at distances.
fn targets(
    alloc: Global,
    numbers: &[Option<u32>],
    pc: u32,
    offsets: &[i32],
) -> Result<Items<u32>, TakeApartFault>
    ensures found { IfOk result (λ to. AllZip (IsTarget numbers.now pc) offsets.now to) }
    ensures fault { IfErr result (FaultIs (λ _. ⊥) (λ place. (place ≡ pc) × Any (IsAstray numbers.now pc) offsets.now)) }
{
    let mut to = Vec::with_capacity(alloc, offsets.len())?;
    for offset in offsets {
        match target(numbers, pc, *offset) {
            Some(number) => to.push(number)?,
            None => return Err(TakeApartFault::Target(pc)),
        }
    }
    Ok(Items::from_vec(to))
}

/// Where an instruction may lead.
fn jump(
    alloc: Global,
    code: &[u8],
    numbers: &[Option<u32>],
    step: Step,
) -> Result<Jump<u32>, TakeApartFault>
    requires small { length code.now < 2 ^ 16 }
    requires there { HasSwitch code.now step.insn }
    ensures found { IfOk result (IsJump code.now numbers.now step) }
    ensures fault { IfErr result (FaultIs (λ _. ⊥) (λ place. (place ≡ step.pc) × LeadsAstray code.now numbers.now step)) }
{
    let offsets = offsets(alloc, code, step.insn)?;
    let to = targets(alloc, numbers, step.pc, offsets.as_slice())?;
    let keys = keys(alloc, code, step.insn)?;
    Ok(Jump { keys, to })
}

/// Where each instruction may lead.
pub(crate) fn jumps(
    alloc: Global,
    code: &[u8],
    numbers: &[Option<u32>],
    steps: &[Step],
) -> Result<Items<Jump<u32>>, TakeApartFault>
    requires small { length code.now < 2 ^ 16 }
    requires there { AllByRecursion (λ (step : Step). HasSwitch code.now step.insn) steps.now }
    ensures found { IfOk result (λ all. AllZip (IsJump code.now numbers.now) steps.now all) }
    ensures fault { IfErr result (FaultIs (λ _. ⊥) (FirstAstray code.now numbers.now steps.now)) }
{
    let mut all = Vec::with_capacity(alloc, steps.len())?;
    for step in steps {
        match jump(alloc, code, numbers, *step) {
            Ok(jump) => all.push(jump)?,
            Err(fault) => return Err(fault),
        }
    }
    Ok(Items::from_vec(all))
}
