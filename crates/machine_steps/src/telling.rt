//! Steps that say an event.

ghost use Rattle.std.specs.Prelude.{◌≡◌, []};
ghost use Rattle.class_world.specs.Tables.{Known};
ghost use Rattle.class_machine.specs.Events.{is_broken};
ghost use Rattle.machine_values.specs.declared.state.Due.TheVariants.{Finally};
ghost use Rattle.machine_values.specs.Observed.{machine_ending};
ghost use Rattle.machine_steps.specs.Runs.{IsFormed};
ghost use Rattle.machine_steps.specs.Tellings.{Tells};

use crate::step::Step;
use machine_values::{Due, Ending, Event, MachineState};

fn is_broken(ending: &Ending) -> bool
    ensures { result ≡ is_broken (machine_ending ending.now) }
{
    matches!(ending, Ending::Broken)
}

// No frame is left, and the ending is still to come.
fn end_later(state: &mut MachineState, ending: Ending)
    ensures rest { state.new ≡ record state.old { frames = state.new.frames; due = Finally ending } }
    ensures none { state.new.frames.items ≡ [] }
{
    state.frames.clear();
    state.due = Due::Finally(ending);
}

/// The step with its event. An ending that it comes to is one step later, unless the run is Broken:
/// then nothing is said.
pub fn tell(state: &mut MachineState, event: Event, step: Step) -> Step
    ensures formed { (k : Known) → IsFormed k state.old → IsFormed k state.new }
    ensures tells { Tells state.old event step state.new result }
{
    match step {
        Step::Went => Step::Said(event),
        Step::Ended(ending) => {
            if is_broken(&ending) {
                return Step::Ended(Ending::Broken);
            }
            end_later(state, ending);
            Step::Said(event)
        }
        _ => step,
    }
}
