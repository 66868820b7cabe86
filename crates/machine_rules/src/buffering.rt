//! Buffers that get their first text.

ghost use Rattle.std.specs.Prelude.{◌≡◌, ◌<◌, length, IfOk, OnErr};
ghost use Rattle.boot_library.specs.declared.rule.LibraryRule.TheVariants as rule;
ghost use Rattle.class_machine.specs.LibraryCalls as calls;
ghost use Rattle.machine_values.specs.Standing.{name_of, held, Settled};
ghost use Rattle.machine_requests.specs.Objects.{AreFilled};
ghost use Rattle.machine_requests.specs.Shares.{Setting};
ghost use Rattle.machine_rules.specs.Works.{Does, ChangesBy};

use crate::arguments::{TextArgument, text_argument};
use crate::finishing::fill;
use crate::objects::has_text;
use crate::work::Work;
use class_machine::kinds::Fault;
use class_world::World;
use machine_values::{Heap, Ref, Value};
use std::alloc::{AllocError, Global};

/// The buffer holds the units of the argument then; what holds no text is no buffer. A call that fails leaves the heap as it was.
pub(crate) fn fill_buffer(
    alloc: Global,
    heap: &mut Heap,
    world: &World,
    at: Ref,
    text: Value,
) -> Result<Work, AllocError>
    requires at { at.0 < length heap.old.names }
    requires text { Settled (length heap.old.names) text }
    ensures work { IfOk result (λ work. Does world.now heap.old (λ s names w. calls.with_argument s.classes w rule.FillBuffer (name_of s.heads names at) (held s.heads names text)) heap.new work) }
    ensures names { heap.new.names ≡ heap.old.names }
    ensures filled { IfOk result (λ work. (s : Setting) → AreFilled heap.old s → AreFilled heap.new s) }
    ensures changes { IfOk result (λ work. ChangesBy heap.old heap.new work) }
    ensures err { OnErr result (heap.new ≡ heap.old) }
{
    let units = match text_argument(heap, world, text) {
        TextArgument::Units(units) => Vec::from_slice(alloc, units)?,
        TextArgument::Nothing => return Ok(Work::Faults(Fault::NullPointer)),
        TextArgument::Other => return Ok(Work::Misuses),
    };
    if !has_text(heap, at) {
        return Ok(Work::Misuses);
    }
    fill(heap, at, units.as_slice())?;
    Ok(Work::Results(None, None))
}
