//! Code taken apart.

ghost use Rattle.std.specs.Prelude.{◌≡◌, ◌<◌, ◌^◌, length, map, IfOk, IfErr, None, List, ℕ};
ghost use Rattle.class_file.specs.Code.{code_fault};
ghost use Rattle.class_file.specs.declared.pool.PoolEntry.{PoolEntry};
ghost use Rattle.code_layout.specs.declared.walk.Step.{Step};
ghost use Rattle.code_layout.specs.Apart.{apart, Gives};
ghost use Rattle.code_layout.specs.Numbers.{AreSteps};

use crate::fault::TakeApartFault;
use crate::jumps::jumps;
use crate::method_code::MethodCode;
use crate::tables::{entries, line_tables, variable_tables};
use crate::walk::{Step, walk_code};
use class_file::CodeAttr;
use opcode_table::Insn;
use sqlite_items::Items;
use std::alloc::{AllocError, Global};

/// The instructions of the steps.
fn insns(alloc: Global, steps: &[Step]) -> Result<Vec<Insn>, AllocError>
    ensures { IfOk result (λ insns. insns.items ≡ map (λ (s : Step). s.insn) steps.now) }
{
    steps.iter().map(|step| step.insn).collect(alloc)
}

/// The code whose instructions these are, by their numbers.
fn by_number(
    alloc: Global,
    code: &CodeAttr,
    steps: &[Step],
    numbers: &[Option<u32>],
) -> Result<MethodCode, TakeApartFault>
    requires small { length code.now.code < 2 ^ 16 }
    requires are { AreSteps code.now.code steps.now numbers.now }
    ensures { Gives result (apart code.now) }
{
    let count = steps.len() as u32;
    let targets = jumps(alloc, code.code.as_slice(), numbers, steps)?;
    let entries = entries(alloc, numbers, count, code.entries.as_slice())?;
    let attributes = code.attributes.as_slice();
    Ok(MethodCode {
        insns: Items::from_vec(insns(alloc, steps)?),
        targets,
        entries,
        lines: line_tables(alloc, numbers, attributes)?,
        variables: variable_tables(alloc, numbers, count, attributes)?,
        max_stack: code.max_stack,
        max_locals: code.max_locals,
    })
}

#[tactic(auto, using(crate::specs::Taken::refused_for_memory))]
/// The code by instruction numbers: each instruction, and each target, range, line and local variable
/// (JVMS 4.7.3). A row of a table is left out that begins where no instruction does, or whose variable
/// ends neither where one begins nor where the code ends. Other attributes are left out.
///
/// # Errors
/// `Code` of the first place that has no instruction, else `Target` of the first branch or switch that
/// leads elsewhere, else of the first start, end or handler of the exception table that stands
/// elsewhere; the end may be the code's. `Memory`.
pub fn take_apart(alloc: Global, code: &CodeAttr) -> Result<MethodCode, TakeApartFault>
    requires { length code.now.code < 2 ^ 16 }
    // What is answered is the code taken apart or its fault, but for want of memory.
    ensures exact { Gives result (apart code.now) }
    // Code that may stand in some class is refused for want of memory alone.
    ensures taken { (major : ℕ) (pool : List PoolEntry) → code_fault major pool code.now ≡ None → IfErr result (λ fault. fault ≡ TakeApartFault.Memory) }
{
    let found = walk_code(alloc, code.code.as_slice())?;
    by_number(
        alloc,
        code,
        found.steps.as_slice(),
        found.numbers.as_slice(),
    )
}
