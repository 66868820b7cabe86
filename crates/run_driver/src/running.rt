//! Runs.

ghost use Rattle.std.specs.Prelude.{◌≡◌, List, map, IfOk};
ghost use Rattle.class_machine.specs.Classes.{Method};
ghost use Rattle.class_machine.specs.ClassFiles.{Place};
ghost use Rattle.class_machine.specs.Machine.{State};
ghost use Rattle.class_machine.specs.Run.{class_observation};
ghost use Rattle.event_machine.specs.Observation.{observed};
ghost use Rattle.machine_values.specs.Observed.{machine_answer};
ghost use Rattle.machine_steps.specs.Programs.{Machine, IsMachine, IsRunnable};
ghost use Rattle.machine_steps.specs.Runs.{IsMethod, IsFormed, Runs, answers_left};
ghost use Rattle.machine_invocations.specs.Invoked.{step_of};
ghost use Rattle.machine_invocations.specs.Methods.{Sees};
ghost use Rattle.machine_start.specs.Arguments.{argument_of};
ghost use Rattle.run_driver.specs.Stepping.{IsThere};
ghost use Rattle.run_driver.specs.Reports.{Reports};

use crate::report::Report;
use crate::stepping::step;
use class_world::World;
use machine_start::start;
use machine_steps::Step;
use machine_values::{Entry, MachineState, Script};
use std::alloc::{AllocError, Global};

// Takes the steps from a state on, until the run is over.
fn drive(
    alloc: Global,
    state: &mut MachineState,
    world: &World,
    script: &mut Script,
    steps: u64,
) -> Result<Report, AllocError>
    requires runnable { IsRunnable world.now }
    requires formed { IsFormed world.now state.old }
    requires there { IsThere world.now state.old (answers_left script.old) }
    ensures { IfOk result (λ report. (m : Machine) (t : State Place) → IsMachine world.now m → Runs m state.old (answers_left script.old) t → Reports (λ n. observed (step_of m) n t) steps report) }
{
    let mut events = Vec::new(alloc);
    'steps: for taken in 0..steps {
        match step(state, world, script)? {
            Step::Went => {}
            Step::Said(event) => events.push(event)?,
            Step::Ended(ending) => {
                return Ok(Report {
                    events,
                    ending: Some(ending),
                    steps: taken + 1,
                });
            }
            Step::NotMine => unreachable!(),
        }
    }
    Ok(Report {
        events,
        ending: None,
        steps,
    })
}

/// Runs the machine from an entry method for at most so many steps, with the answers that are left in
/// the script to its native calls. The report has the events in the order in which they were said, the
/// ending where the run has come to one, and the least number of steps at which it has, or else all
/// steps (JVMS 2.17.1, 2.17.9). The time goes by the steps taken and by what they say; of earlier events
/// nothing is copied.
///
/// # Errors
/// Where there is no memory.
pub fn run(
    alloc: Global,
    world: &World,
    entry: &Entry,
    mut script: Script,
    steps: u64,
) -> Result<Report, AllocError>
    requires runnable { IsRunnable world.now }
    requires method { IsMethod world.now entry.now.method.0 }
    ensures { IfOk result (λ report. (method : Method) → Sees world.now entry.now.method.0 method → Reports (class_observation world.now.files (map machine_answer (answers_left script)) method (map argument_of entry.now.args)) steps report) }
{
    let mut state = start(alloc, world, entry)?;
    drive(alloc, &mut state, world, &mut script, steps)
}
