//! Methods of the library, by their rules.

ghost use Rattle.std.specs.Prelude.{◌≡◌, ◌<◌, Bool, List, Some, true, false, is_some, length, IfOk, OnErr};
ghost use Rattle.std.specs.List.{AllByRecursion};
ghost use Rattle.class_file.specs.Pool.{Reference as Named};
ghost use Rattle.class_heads.specs.Hierarchy.{place_of};
ghost use Rattle.class_machine.specs.Classes.{Method};
ghost use Rattle.class_machine.specs.Values.{class_of};
ghost use Rattle.machine_values.specs.declared.script.Answer.{Answer as AnswerOf};
ghost use Rattle.machine_values.specs.Standing.{name_of, Settled};
ghost use Rattle.machine_values.specs.States.{is_known_object};
ghost use Rattle.machine_requests.specs.Telling.{is_class_type};
ghost use Rattle.machine_rules.specs.declared.work.Work.TheVariants.{Throws, Loads};
ghost use Rattle.machine_steps.specs.Programs.{IsRunnable};
ghost use Rattle.machine_steps.specs.Runs.{IsFormed};
ghost use Rattle.machine_invocations.specs.Keeping.{Keeps, IsSame};
ghost use Rattle.machine_invocations.specs.Methods.{Sees};
ghost use Rattle.machine_works.specs.Finishing.{StandsAtWork};
ghost use Rattle.machine_invokes.specs.Preparing.{runs_call};
ghost use Rattle.machine_parts.specs.Lines.{StandsForOne};
ghost use Rattle.machine_calling.specs.Ran.{HasRoom, RanBy};
ghost use Rattle.machine_calling.specs.Working.{loads_one, ForgetsFrom, RanWith, Undoes, Restores};

use crate::natives::constructs;
use crate::ran::Ran;
use aj_names::FieldType;
use boot_library::LibraryRule;
use class_world::World;
use machine_invokes::Invocation;
use machine_rules::{Work, by_rule};
use machine_steps::raise;
use machine_values::{MachineState, Ref};
use machine_works::{Loading, end_call, finish_work, load};
use std::alloc::AllocError;

// The exception, which the call made, leaves the running frame; `count` objects were there before it.
fn throw(state: &mut MachineState, world: &World, x: Ref, count: usize) -> Result<Ran, AllocError>
    requires runnable { IsRunnable world.now }
    requires formed { IsFormed world.now state.old }
    requires known { x.0 < length state.old.heap.names }
    requires class { is_some (place_of world.now.heads (class_of (name_of world.now.heads state.old.heap.names x))) ≡ true }
    ensures formed { IsFormed world.now state.new }
    ensures ran { IfOk result (λ ran. (super : Bool) → RanWith world.now state.old state.new super (Throws x) ran) }
    ensures err { OnErr result (ForgetsFrom count state.old state.new) }
{
    match raise(state, world, x) {
        Ok(step) => Ok(Ran::Done(step)),
        Err(failed) => {
            state.heap.truncate(count);
            Err(failed)
        }
    }
}

// The initialisers of the class that are pending come first, or on with the object that stands for it.
fn load_class(state: &mut MachineState, world: &World, class: &FieldType) -> Result<Ran, AllocError>
    requires runnable { IsRunnable world.now }
    requires formed { IsFormed world.now state.old }
    requires class { is_class_type class.now ≡ true }
    ensures formed { IsFormed world.now state.new }
    ensures ran { IfOk result (λ ran. (super : Bool) → RanWith world.now state.old state.new super (Loads class.now) ran) }
    ensures err { OnErr result (Keeps world.now state.old state.new) }
    ensures same { OnErr result (IsSame state.old state.new) }
{
    match load(state, world, class)? {
        Loading::Begins => Ok(Ran::Begins),
        Loading::Goes(step) => Ok(Ran::Done(step)),
    }
}

// The running frame goes on by work that neither throws nor loads a class, and that isn't done.
fn finish_other(
    state: &mut MachineState,
    world: &World,
    super_call: bool,
    work: Work,
) -> Result<Ran, AllocError>
    requires runnable { IsRunnable world.now }
    requires formed { IsFormed world.now state.old }
    requires there { StandsAtWork world.now state.old work }
    ensures formed { IsFormed world.now state.new }
    ensures ran { IfOk result (λ ran. loads_one work ≡ false → RanWith world.now state.old state.new super_call work ran) }
    ensures err { OnErr result (Keeps world.now state.old state.new) }
    ensures same { OnErr result (IsSame state.old state.new) }
{
    let step = finish_work(state, world, super_call, work)?;
    Ok(Ran::Done(step))
}

// What becomes of the running frame by what came of the call; `count` objects were there before it.
fn finish(
    state: &mut MachineState,
    world: &World,
    super_call: bool,
    work: Work,
    count: usize,
) -> Result<Ran, AllocError>
    requires runnable { IsRunnable world.now }
    requires formed { IsFormed world.now state.old }
    requires there { StandsAtWork world.now state.old work }
    ensures formed { IsFormed world.now state.new }
    ensures ran { IfOk result (λ ran. RanWith world.now state.old state.new super_call work ran) }
    ensures err { OnErr result (Undoes world.now count state.old state.new work) }
    ensures same { OnErr result (Restores count state.old state.new work) }
{
    match work {
        Work::Results(said, value) => {
            let step = end_call(state, world, super_call, said, value);
            Ok(Ran::Done(step))
        }
        Work::Throws(x) => throw(state, world, x, count),
        Work::Loads(class) => load_class(state, world, &class),
        work => finish_other(state, world, super_call, work),
    }
}

/// The method of the library does what its rule says.
///
/// # Errors
/// Where there is no memory; the state is as it was then.
pub(crate) fn run_rule(
    state: &mut MachineState,
    world: &World,
    rule: LibraryRule,
    call: &Invocation,
) -> Result<Ran, AllocError>
    requires runnable { IsRunnable world.now }
    requires formed { IsFormed world.now state.old }
    requires receiver { is_known_object (length state.old.heap.names) call.now.receiver ≡ true }
    requires arguments { AllByRecursion (Settled (length state.old.heap.names)) call.now.arguments.items }
    requires there { StandsForOne world.now state.old }
    ensures formed { IsFormed world.now state.new }
    ensures ran { IfOk result (λ ran. (left : List AnswerOf) (callee : Method) (r : Named) → callee.is_native ≡ false → callee.rule ≡ Some rule → HasRoom world.now state.old left callee → RanBy world.now state.old state.new left left (runs_call r callee call.now state.old) ran) }
    ensures err { OnErr result (Keeps world.now state.old state.new) }
    ensures same { OnErr result (IsSame state.old state.new) }
{
    let alloc = *state.frames.allocator();
    let count = state.heap.count();
    let arguments = call.arguments.as_slice();
    let work = by_rule(
        alloc,
        &mut state.heap,
        world,
        rule,
        call.receiver,
        arguments,
    )?;
    finish(state, world, constructs(call.purpose), work, count)
}
