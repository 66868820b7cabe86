//! The numbers of members.

ghost use Rattle.std.specs.Prelude.{◌≡◌, ◌+◌, ◌<◌, ◌^◌, IfOk, IfErr};
ghost use Rattle.class_heads.specs.declared.fault.WorldFault.TheVariants.{Memory};
ghost use Rattle.class_heads.specs.Numbers.{field_counts, method_counts};
ghost use Rattle.class_world.specs.Tables.{IsFirsts};

use class_heads::{ClassHead, WorldFault};
use std::alloc::Global;

// The number behind so many more.
fn number_after(number: u32, count: usize) -> Result<u32, WorldFault>
    ensures next { IfOk result (λ next. next ≡ number + count) }
    ensures few { IfOk result (λ next. next < 2 ^ 32) }
    ensures fault { IfErr result (λ fault. fault ≡ Memory) }
{
    match u32::try_from(count) {
        Ok(count) => number.checked_add(count).ok_or(WorldFault::Memory),
        Err(_) => Err(WorldFault::Memory),
    }
}

/// The number of the first field of each class.
pub(crate) fn first_fields(alloc: Global, heads: &[ClassHead]) -> Result<Vec<u32>, WorldFault>
    ensures firsts { IfOk result (λ firsts. IsFirsts (field_counts heads.now) firsts.items) }
    ensures fault { IfErr result (λ fault. fault ≡ Memory) }
{
    let mut firsts = Vec::new(alloc);
    let mut next: u32 = 0;
    for head in heads {
        firsts.push(next)?;
        next = number_after(next, head.fields.len())?;
    }
    Ok(firsts)
}

/// The number of the first method of each class.
pub(crate) fn first_methods(alloc: Global, heads: &[ClassHead]) -> Result<Vec<u32>, WorldFault>
    ensures firsts { IfOk result (λ firsts. IsFirsts (method_counts heads.now) firsts.items) }
    ensures fault { IfErr result (λ fault. fault ≡ Memory) }
{
    let mut firsts = Vec::new(alloc);
    let mut next: u32 = 0;
    for head in heads {
        firsts.push(next)?;
        next = number_after(next, head.methods.len())?;
    }
    Ok(firsts)
}
