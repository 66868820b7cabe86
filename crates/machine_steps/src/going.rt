//! On, within the running frame.

ghost use Rattle.std.specs.Prelude.{◌≡◌, ◌<◌, ℕ, false, length};
ghost use Rattle.machine_values.specs.Standing.{held, Settled};
ghost use Rattle.machine_steps.specs.Programs.{IsRunnable};
ghost use Rattle.machine_steps.specs.Runs.{IsFormed};
ghost use Rattle.machine_steps.specs.Moves.{Moves, goes_on, goes_on_with};
ghost use Rattle.machine_steps.specs.Ends.{ends};

use crate::running::stands_at;
use crate::step::Step;
use class_world::World;
use machine_frames::{Effect, push_constant};
use machine_values::{Ending, MachineState, Value};

/// The running frame goes on at the place, with what it holds. Where no instruction stands there the
/// run is Broken.
pub fn go_on(state: &mut MachineState, world: &World, pc: u32) -> Step
    requires runnable { IsRunnable world.now }
    requires formed { IsFormed world.now state.old }
    ensures formed { IsFormed world.now state.new }
    ensures going { ends result ≡ false }
    ensures moves { Moves world.now state.old state.new result (goes_on pc) }
{
    if !stands_at(state, world, pc) {
        return Step::Ended(Ending::Broken);
    }
    let top = state.frames.len() - 1;
    state.frames[top].pc = pc;
    Step::Went
}

/// The running frame goes on at the place, with the value on top. Where there is no room for it the
/// run is Broken.
pub fn give(state: &mut MachineState, world: &World, value: Value, pc: u32) -> Step
    requires runnable { IsRunnable world.now }
    requires formed { IsFormed world.now state.old }
    requires settled { Settled (length state.old.heap.names) value }
    ensures formed { IsFormed world.now state.new }
    ensures going { ends result ≡ false }
    ensures moves { Moves world.now state.old state.new result (goes_on_with (λ m t. held m.setting.heads state.old.heap.names value) pc) }
{
    if !stands_at(state, world, pc) {
        return Step::Ended(Ending::Broken);
    }
    let top = state.frames.len() - 1;
    let frame = &mut state.frames[top];
    match push_constant(frame, value) {
        Effect::On => {
            frame.pc = pc;
            Step::Went
        }
        _ => Step::Ended(Ending::Broken),
    }
}
