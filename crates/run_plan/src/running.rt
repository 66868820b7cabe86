//! Class files run.

ghost use Rattle.std.specs.Prelude.{◌≡◌, IfOk, IfErr, OnOk, IsTrue};
ghost use Rattle.std.specs.List.{AllByRecursion};
ghost use Rattle.class_file.specs.WellFormed.{is_well_formed};
ghost use Rattle.machine_steps.specs.Programs.{IsRunnable};
ghost use Rattle.machine_steps.specs.Runs.{answers_left};
ghost use Rattle.run_plan.specs.Running.{world_of, AreSound, IsFaultOf, FindsEntry, RunsFrom, IsRefused};

use crate::fault::RunFault;
use boot_library::library_heads;
use class_file::ClassFile;
use class_world::{World, WorldFault};
use machine_start::find_entry;
use machine_values::{Entry, Script};
use run_driver::{Report, run};
use run_lines::EntryWords;
use std::alloc::Global;

// The world of the classes, beside the library.
fn world_of(alloc: Global, classes: Vec<ClassFile>) -> Result<World, RunFault>
    requires { AllByRecursion (λ c. IsTrue (is_well_formed c)) classes.items }
    ensures world { IfOk result (λ world. world ≡ world_of classes.items) }
    ensures runnable { IfOk result IsRunnable }
    ensures sound { OnOk result (AreSound classes.items) }
    ensures fault { IfErr result (IsFaultOf classes.items) }
{
    let library = library_heads(alloc)?;
    match World::build(alloc, classes, library.as_slice(), true) {
        Ok(world) => Ok(world),
        Err(WorldFault::Memory) => Err(RunFault::Memory),
        Err(fault) => Err(RunFault::World(fault)),
    }
}

// The entry that the words name.
fn named_entry(world: &World, words: EntryWords) -> Option<Entry>
    requires { IsRunnable world.now }
    ensures { FindsEntry world.now words result }
{
    let EntryWords {
        class,
        method,
        args,
    } = words;
    let method = find_entry(world, class.as_slice(), method.as_slice(), args.as_slice())?;
    Some(Entry { method, args })
}

/// Runs the classes, beside the library, from the entry that the words name, for at most so many steps.
/// The answers that are left in the script are those to native calls. Reserved names are no fault.
///
/// # Errors
/// `World` where the classes have a fault as a world, else `NoEntry` where no method takes the entry,
/// and `Memory`.
pub fn run_classes(
    alloc: Global,
    classes: Vec<ClassFile>,
    words: EntryWords,
    script: Script,
    steps: u64,
) -> Result<Report, RunFault>
    requires { AllByRecursion (λ c. IsTrue (is_well_formed c)) classes.items }
    ensures ran { IfOk result (RunsFrom classes.items words (answers_left script) steps) }
    ensures refused { IfErr result (IsRefused classes.items words) }
{
    let world = world_of(alloc, classes)?;
    match named_entry(&world, words) {
        Some(entry) => Ok(run(alloc, &world, &entry, script, steps)?),
        None => Err(RunFault::NoEntry),
    }
}
