//! What becomes of the running frame by a reply.

ghost use Rattle.std.specs.Prelude.{◌≡◌, Some, true, false, length, IfOk, OnErr};
ghost use Rattle.machine_values.specs.Standing.{Settled};
ghost use Rattle.machine_frames.specs.Effects.{is_request_within};
ghost use Rattle.machine_requests.specs.declared.reply.Reply.TheVariants.{Refuses};
ghost use Rattle.machine_values.specs.declared.observed.Ending.TheVariants.{Broken};
ghost use Rattle.machine_steps.specs.declared.step.Step.TheVariants.{Ended};
ghost use Rattle.machine_steps.specs.Programs.{IsRunnable};
ghost use Rattle.machine_steps.specs.Runs.{IsFormed};
ghost use Rattle.machine_steps.specs.Moves.{Moves};
ghost use Rattle.machine_invocations.specs.Keeping.{Keeps};
ghost use Rattle.machine_invocations.specs.Returning.{takes_back};
ghost use Rattle.machine_basics.specs.Turns.{asks, follows};
ghost use Rattle.machine_basics.specs.Replied.{IsReply, IsSettledReply, is_fault};
ghost use Rattle.machine_basics.specs.Sparing.{AsksForMemory};

use crate::asking;
use crate::going::go_next;
use crate::performing::is_settled;
use class_world::World;
use machine_frames::Request;
use machine_invocations::take_back;
use machine_requests::Reply;
use machine_steps::{Step, fail};
use machine_values::{Ending, MachineState, Value};
use std::alloc::AllocError;

// The running frame goes on behind its instruction, with the value on top.
fn give_next(state: &mut MachineState, world: &World, value: Value) -> Step
    requires runnable { IsRunnable world.now }
    requires formed { IsFormed world.now state.old }
    ensures formed { IsFormed world.now state.new }
    ensures moves { Settled (length state.old.heap.names) value → Moves world.now state.old state.new result (takes_back false (Some value) state.old) }
{
    if !is_settled(value, state.heap.count()) {
        return Step::Ended(Ending::Broken);
    }
    take_back(state, world, false, Some(value))
}

// What becomes of the running frame by the reply. Only an exception takes memory.
fn follow(state: &mut MachineState, world: &World, reply: Reply) -> Result<Step, AllocError>
    requires runnable { IsRunnable world.now }
    requires formed { IsFormed world.now state.old }
    ensures formed { IsFormed world.now state.new }
    ensures moves { IsSettledReply (length state.old.heap.names) reply → IfOk result (λ step. Moves world.now state.old state.new step (follows state.old reply)) }
    ensures refused { IfOk result (λ step. reply ≡ Refuses → step ≡ Ended Broken) }
    ensures fault { OnErr result (is_fault reply ≡ true) }
    ensures err { OnErr result (state.new ≡ state.old) }
{
    match reply {
        Reply::Gives(value) => Ok(give_next(state, world, value)),
        Reply::Done => Ok(go_next(state, world)),
        Reply::Faults(fault) => fail(state, world, fault),
        Reply::Refuses => Ok(Step::Ended(Ending::Broken)),
    }
}

// What the heap or the monitors answer. Only what makes an array or enters a monitor takes memory.
fn reply_to(state: &mut MachineState, world: &World, request: &Request) -> Result<Reply, AllocError>
    requires runnable { IsRunnable world.now }
    requires formed { IsFormed world.now state.old }
    requires known { is_request_within (length state.old.heap.names) request.now ≡ true }
    ensures formed { IsFormed world.now state.new }
    ensures replied { IfOk result (λ reply. IsReply world.now state.old request.now state.new reply) }
    ensures spared { OnErr result (AsksForMemory world.now state.old request.now) }
    ensures err { OnErr result (Keeps world.now state.old state.new) }
{
    match *request {
        Request::MakeArray(element, size) => asking::make(state, world, element, size),
        Request::ArrayLoad(element, array, index) => Ok(asking::load(state, element, array, index)),
        Request::ArrayStore(element, array, index, value) => {
            Ok(asking::store(state, world, element, array, index, value))
        }
        Request::ArrayLength(array) => Ok(asking::count(state, array)),
        Request::EnterMonitor(object) => asking::enter(state, object),
        Request::LeaveMonitor(object) => Ok(asking::leave(state, object)),
    }
}

/// The running frame asks the heap or the monitors, and goes on by the reply. Where there is no room for
/// what is given the run is Broken.
///
/// # Errors
/// Where there is no memory; the state stands for what it stood for then. It is never refused but where
/// an array is made, a monitor entered, or an exception answered.
pub(crate) fn ask(
    state: &mut MachineState,
    world: &World,
    request: Request,
) -> Result<Step, AllocError>
    requires runnable { IsRunnable world.now }
    requires formed { IsFormed world.now state.old }
    requires known { is_request_within (length state.old.heap.names) request ≡ true }
    ensures formed { IsFormed world.now state.new }
    ensures moves { IfOk result (λ step. Moves world.now state.old state.new step (asks state.old request)) }
    ensures spared { OnErr result (AsksForMemory world.now state.old request) }
    ensures err { OnErr result (Keeps world.now state.old state.new) }
{
    let reply = reply_to(state, world, &request)?;
    follow(state, world, reply)
}
