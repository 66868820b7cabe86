//! What isn't found (JVMS 5.4.3).

ghost use Rattle.std.specs.Prelude.{◌≡◌, IfOk};
ghost use Rattle.class_file.specs.Lookup.{reference_seen};
ghost use Rattle.class_machine.specs.Classes.{dotted, member_text};
ghost use Rattle.machine_values.specs.declared.observed.Ending.TheVariants.{Unresolved};
ghost use Rattle.machine_steps.specs.declared.step.Step.TheVariants.{Ended};

use class_file::Reference;
use machine_invocations::member_text;
use machine_steps::Step;
use machine_values::{Ending, MachineState};
use sqlite_items::Items;
use std::alloc::{AllocError, Global};

/// The member is unresolved.
///
/// # Errors
/// Where there is no memory.
pub(crate) fn missing_member(
    state: &MachineState,
    member: Reference<'_>,
) -> Result<Step, AllocError>
    ensures { IfOk result (λ step. step ≡ Ended (Unresolved (member_text (reference_seen member.entry)))) }
{
    let text = member_text(*state.frames.allocator(), member.class, member.member.name)?;
    Ok(Step::Ended(Ending::Unresolved(text)))
}

// The name with dots for its slashes.
fn dotted(alloc: Global, name: &[u8]) -> Result<Vec<u8>, AllocError>
    ensures { IfOk result (λ text. text.items ≡ dotted name.now) }
{
    name.iter()
        .map(|b| if *b == b'/' { b'.' } else { *b })
        .collect(alloc)
}

/// The class or array type is unresolved.
///
/// # Errors
/// Where there is no memory.
pub(crate) fn missing_class(state: &MachineState, class: &[u8]) -> Result<Step, AllocError>
    ensures { IfOk result (λ step. step ≡ Ended (Unresolved (dotted class.now))) }
{
    let text = dotted(*state.frames.allocator(), class)?;
    Ok(Step::Ended(Ending::Unresolved(Items::from_vec(text))))
}
