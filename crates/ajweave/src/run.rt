//! `run IN ENTRY STEPS [SCRIPT]`, but for what it prints: all reads come first, of the list, of each file of
//! a class and of the script, and then all is done in memory.
ghost use Rattle.std.specs.Prelude.{◌≡◌, ◌<◌, ◌⊎◌, ℕ, List, length, Some, None, IfOk, IfSome, OnOk, Err, true, IsTrue};
ghost use Rattle.std.specs.List.{All, AllByRecursion, find};
ghost use Rattle.std.specs.Option.{option_map};
ghost use Rattle.aj_outside.specs.Counts.{Rose, last_count};
ghost use Rattle.aj_outside.specs.Files.{is_under, names_under};
ghost use Rattle.class_file.specs.WellFormed.{is_well_formed};
ghost use Rattle.weave_plan.specs.Faults.{is_faulty};
ghost use Rattle.weave_plan.specs.Plan.{files_of};
ghost use Rattle.weave_plan.specs.Worlds.{classes_of};
ghost use Rattle.machine_steps.specs.Runs.{answers_left};
ghost use Rattle.run_plan.specs.Running.{RunsFrom};
ghost use Rattle.ajweave.specs.Answers.{ReadFailed, most_names};
ghost use Rattle.ajweave.specs.Runs.{IsOfRunning};
ghost use Rattle.ajweave.specs.Steps.{OnStop, IsRefusal, IsNoWriteStop, IsRunStop, IsClassRefusal, IsRunRefusal, IsOfScript, IsMissingFile, FindsNoScript, WereRead, RunEnds, EndsOfRead, EndsMissing, IsNoScript, run_of};

use crate::input::{Kept, check_sizes, listed, no_class, read_inputs};
use crate::script::{ScriptFile, script_file, script_of};
use crate::status::Refusal;
use crate::stop::Stop;
use aj_outside::{Name, Shelf};
use class_file::ClassFile;
use machine_values::Script;
use run_driver::Report;
use run_lines::{EntryWords, RunWords};
use run_plan::{RunFault, run_classes};
use std::alloc::Global;
use weave_plan::{NamedFile, ReadFault, read_classes};

/// Runs the classes of a folder of the shelf from an entry, and reports what is observed of it.
///
/// # Errors
/// Why it stopped: a failed read, a refusal, or want of memory.
pub(crate) fn run_command<S: Shelf>(
    alloc: Global,
    words: RunWords<'_>,
    shelf: &mut S,
) -> Result<Report, Stop>
    requires can_read { S.faults shelf.old < last_count }
    requires can_miss { S.missing shelf.old < last_count }
    ensures ended { RunEnds result (run_of words.entry) (S.held shelf.old) }
    ensures own { OnStop result IsRunStop }
    ensures kept { S.held shelf.new ≡ S.held shelf.old }
    ensures writes { S.write_faults shelf.new ≡ S.write_faults shelf.old }
    ensures read { result ≡ Err Stop.Read → ReadFailed (S.held shelf.old) (S.faults shelf.old) (S.faults shelf.new) (S.missing shelf.old) (S.missing shelf.new) }
    ensures failed { Rose (S.faults shelf.old) (S.faults shelf.new) → result ≡ Err Stop.Read }
    ensures missed { S.held shelf.old ≡ None → Rose (S.missing shelf.old) (S.missing shelf.new) → (result ≡ Err Stop.Read) ⊎ EndsMissing (run_of words.entry).script result }
    ensures no_script { (name : List ℕ) → IsNoScript name result → ((run_of words.entry).script ≡ Some name) × Rose (S.missing shelf.old) (S.missing shelf.new) }
{
    let (inputs, script) = read_all(alloc, words.input, words.script, shelf)?;
    run_read(alloc, words, inputs.as_slice(), script)
}

/// The class files of the folder, and what is found of the script. No more bytes of a file are read than
/// tell whether it is too long.
///
/// # Errors
/// `Read` where the shelf fails or a listed file is gone, the refusal `ManyFiles`, and `Memory`.
fn read_all<S: Shelf>(
    alloc: Global,
    input: &str,
    script: Option<&str>,
    shelf: &mut S,
) -> Result<(Vec<NamedFile>, ScriptFile), Stop>
    requires can_read { S.faults shelf.old < last_count }
    requires can_miss { S.missing shelf.old < last_count }
    ensures given { IfOk result (λ found. IfSome (S.held shelf.old) (λ files. WereRead input.now (option_map (λ name. name.now) script.entry) files (files_of found.0.items) found.1)) }
    ensures named { IfOk result (λ found. IsOfScript (option_map (λ name. name.now) script.entry) found.1) }
    ensures under { IfOk result (λ found. All (λ file. is_under input.now file.name ≡ true) found.0.items) }
    ensures stopped { OnStop result (IsNoWriteStop (λ refusal. (refusal ≡ Refusal.ManyFiles) × IfSome (S.held shelf.old) (λ files. most_names < length (names_under input.now files)))) }
    ensures read { result ≡ Err Stop.Read → ReadFailed (S.held shelf.old) (S.faults shelf.old) (S.faults shelf.new) (S.missing shelf.old) (S.missing shelf.new) }
    ensures failed { Rose (S.faults shelf.old) (S.faults shelf.new) → result ≡ Err Stop.Read }
    ensures missed { S.held shelf.old ≡ None → Rose (S.missing shelf.old) (S.missing shelf.new) → (result ≡ Err Stop.Read) ⊎ FindsNoScript result }
    ensures no_script { FindsNoScript result → Rose (S.missing shelf.old) (S.missing shelf.new) }
    ensures writes { S.write_faults shelf.new ≡ S.write_faults shelf.old }
    ensures kept { S.held shelf.new ≡ S.held shelf.old }
{
    let names = listed(alloc, input, shelf)?;
    let inputs = read_inputs(alloc, Kept::Classes, names, shelf)?;
    let script = script_file(alloc, script, shelf)?;
    Ok((inputs, script))
}

/// What is observed of a run of the class files, with the script that was found.
///
/// # Errors
/// The refusals of these files, and `Memory`.
fn run_read(
    alloc: Global,
    words: RunWords<'_>,
    inputs: &[NamedFile],
    script: ScriptFile,
) -> Result<Report, Stop>
    requires under { All (λ file. is_under words.input.now file.name ≡ true) inputs.now }
    requires named { IsOfScript (run_of words).script script }
    ensures ended { EndsOfRead result (run_of words.entry) (files_of inputs.now) script }
    ensures stopped { OnStop result (IsRefusal IsOfRunning) }
    ensures missing { IsMissingFile script → EndsMissing (run_of words.entry).script result }
    ensures no_script { (name : List ℕ) → IsNoScript name result → ((run_of words.entry).script ≡ Some name) × IsMissingFile script }
{
    check_sizes(alloc, words.input, inputs)?;
    let script = script_of(alloc, script)?;
    let classes = classes_in(alloc, words.input, inputs)?;
    run_from(alloc, classes, words.word, words.entry, script, words.steps)
}

/// The classes that the files are.
///
/// # Errors
/// The refusal `Class` of the first that is none, and `Memory`.
fn classes_in(alloc: Global, folder: &str, files: &[NamedFile]) -> Result<Vec<ClassFile>, Stop>
    requires under { All (λ file. is_under folder.now file.name ≡ true) files.now }
    ensures classes { IfOk result (λ classes. classes.items ≡ classes_of (files_of files.now)) }
    ensures formed { IfOk result (λ classes. AllByRecursion (λ c. IsTrue (is_well_formed c)) classes.items) }
    ensures read { OnOk result (find is_faulty (files_of files.now) ≡ None) }
    ensures stopped { OnStop result (IsRefusal (IsClassRefusal folder.now (files_of files.now))) }
{
    match read_classes(alloc, files) {
        Ok(classes) => Ok(classes),
        Err(ReadFault::Class(place, fault)) => Err(no_class(alloc, folder, files, place, fault)),
        Err(ReadFault::Memory) => Err(Stop::Memory),
    }
}

/// What is observed of a run of the classes.
///
/// # Errors
/// The refusals `World` and `NoEntry`, and `Memory`.
fn run_from(
    alloc: Global,
    classes: Vec<ClassFile>,
    word: &str,
    entry: EntryWords,
    script: Script,
    steps: u64,
) -> Result<Report, Stop>
    requires { AllByRecursion (λ c. IsTrue (is_well_formed c)) classes.items }
    ensures ran { IfOk result (RunsFrom classes.items entry (answers_left script) steps) }
    ensures stopped { OnStop result (IsRefusal (IsRunRefusal classes.items entry word.now)) }
{
    match run_classes(alloc, classes, entry, script, steps) {
        Ok(report) => Ok(report),
        Err(RunFault::World(fault)) => Err(Stop::Refused(Refusal::World(fault))),
        Err(RunFault::NoEntry) => Err(no_entry(alloc, word)),
        Err(RunFault::Memory) => Err(Stop::Memory),
    }
}

/// The refusal of an entry that no method takes. It is `Memory` where that ran out.
fn no_entry(alloc: Global, word: &str) -> Stop
    ensures { IsRefusal (λ refusal. refusal ≡ Refusal.NoEntry word.now) result }
{
    match Name::from_str(alloc, word) {
        Ok(word) => Stop::Refused(Refusal::NoEntry(word)),
        Err(_) => Stop::Memory,
    }
}
