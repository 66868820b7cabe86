//! What the script answers to a call (JVMS 2.10.3).

ghost use Rattle.std.specs.Prelude.{◌≡◌, true, IfOk, OnErr, if◌then◌else◌, ◌+◌};
ghost use Rattle.machine_steps.specs.Programs.{IsRunnable};
ghost use Rattle.machine_steps.specs.Runs.{IsMethod, answers_left};
ghost use Rattle.machine_natives.specs.Responses.{Responds, lacks};

use crate::fitting::fitted;
use crate::response::Response;
use aj_names::MethodId;
use class_world::World;
use machine_code::result_type;
use machine_invocations::declared;
use machine_values::{Heap, Script};
use std::alloc::{AllocError, Global};

fn lacks(response: Response) -> bool
    ensures { result ≡ lacks response }
{
    matches!(response, Response::Lacks)
}

/// What the script answers to a call of the method. An answer that fits is taken; one that doesn't is
/// left, as the class machine leaves it.
///
/// # Errors
/// Where there is no memory, and at the 2^32nd answer of a script; the heap and the script are as they
/// were then.
pub fn respond(
    alloc: Global,
    heap: &mut Heap,
    world: &World,
    script: &mut Script,
    method: MethodId,
) -> Result<Response, AllocError>
    requires runnable { IsRunnable world.now }
    requires method { IsMethod world.now method.0 }
    ensures responds { IfOk result (λ response. Responds world.now heap.old (answers_left script.old) method.0 heap.new (answers_left script.new) response) }
    ensures answers { script.new.answers ≡ script.old.answers }
    ensures lacks { IfOk result (λ response. lacks response ≡ true → (heap.new ≡ heap.old) × (script.new ≡ script.old)) }
    ensures heap { OnErr result (heap.new ≡ heap.old) }
    ensures err { OnErr result (script.new ≡ script.old) }
{
    let Some(next) = script.next.checked_add(1) else {
        return Err(AllocError);
    };
    let declaration = declared(world, method);
    let result = result_type(declaration.method.name.descriptor.as_slice());
    let Some(answer) = script.answers.get(script.next as usize) else {
        return Ok(Response::Lacks);
    };
    let response = fitted(alloc, heap, world, result, answer)?;
    if !lacks(response) {
        script.next = next;
    }
    Ok(response)
}
