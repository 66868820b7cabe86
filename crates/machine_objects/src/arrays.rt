//! Arrays of references (JVMS 5.4.3.1, 6, `anewarray`).

ghost use Rattle.std.specs.Prelude.{◌≡◌, ℕ, List, [], ◌∷◌, Option, IfOk, OnErr};
ghost use Rattle.class_machine.specs.Answers as answers;
ghost use Rattle.class_machine.specs.Descriptors.{array_of};
ghost use Rattle.class_machine.specs.Effect.{MakeArray};
ghost use Rattle.class_machine.specs.Operations.{NewReferenceArray};
ghost use Rattle.machine_requests.specs.Objects.{StaysFilled};
ghost use Rattle.machine_requests.specs.Replies.{IsAnswer, IsLonger};
ghost use Rattle.machine_requests.specs.Shares.{Others, Setting};
ghost use Rattle.machine_steps.specs.Executing.{executes};
ghost use Rattle.machine_steps.specs.Moves.{Moves};
ghost use Rattle.machine_steps.specs.Programs.{IsRunnable};
ghost use Rattle.machine_steps.specs.Runs.{IsFormed};

use crate::going::give_new;
use crate::missing::missing_class;
use crate::named::is_known_class;
use crate::taking::{restore, take_size};
use crate::type_names::array_of;
use class_machine::kinds::Fault;
use class_world::World;
use machine_requests::{Reply, make_array};
use machine_steps::{Step, fail};
use machine_values::{Ending, Heap, MachineState, Value};
use std::alloc::{AllocError, Global};

fn is_negative(size: i32) -> bool
    ensures { result ≡ answers.is_negative size }
{
    size < 0
}

// A new array of so many elements of the class or array type.
fn make(alloc: Global, heap: &mut Heap, class: &[u8], size: i32) -> Result<Reply, AllocError>
    ensures ok { IfOk result (λ reply. (others : Others) (named : Option (List ℕ)) → IsAnswer heap.old others (λ s names. MakeArray named (array_of class.now) (size ∷ [])) heap.new others reply) }
    ensures names { IsLonger heap.old heap.new }
    ensures err { OnErr result (heap.new ≡ heap.old) }
    ensures filled { IfOk result (λ reply. (s : Setting) → StaysFilled heap.old heap.new s) }
{
    let named = array_of(alloc, class)?;
    make_array(heap, &named, size)
}

/// Makes an array of the size on top, whose elements are of the class or array type (JVMS 6,
/// `anewarray`).
///
/// # Errors
/// Where there is no memory; the state is as it was then.
pub fn new_reference_array(
    state: &mut MachineState,
    world: &World,
    class: &[u8],
) -> Result<Step, AllocError>
    requires runnable { IsRunnable world.now }
    requires formed { IsFormed world.now state.old }
    ensures formed { IsFormed world.now state.new }
    ensures moves { IfOk result (λ step. Moves world.now state.old state.new step (executes (NewReferenceArray class.now))) }
    ensures err { OnErr result (state.new ≡ state.old) }
{
    let alloc = *state.frames.allocator();
    let Some(size) = take_size(state) else {
        return Ok(Step::Ended(Ending::Broken));
    };
    let taken = [Value::Int(size)];
    if !is_known_class(world, class) {
        restore(state, &taken);
        return missing_class(state, class);
    }
    if is_negative(size) {
        restore(state, &taken);
        return fail(state, world, Fault::NegativeArraySize);
    }
    match make(alloc, &mut state.heap, class, size) {
        Ok(reply) => Ok(give_new(state, world, reply)),
        Err(failed) => {
            restore(state, &taken);
            Err(failed)
        }
    }
}
