ghost use Rattle.std.specs.Prelude.{◌≡◌, ◌≢◌, ◌↔◌, ◌<◌, ◌⊎◌, ℕ, List, None, IfSome};
ghost use Rattle.aj_outside.specs.Counts.{ComesWithRise, Rose, last_count};
ghost use Rattle.run_lines.specs.CommandWords.{RunCommand, AreRunWords};
ghost use Rattle.ajweave.specs.declared.status.Refusal.{Refusal};
ghost use Rattle.ajweave.specs.declared.status.Refusal.TheVariants.{NoScript};
ghost use Rattle.ajweave.specs.Words.{texts, command_of, usage_line};
ghost use Rattle.ajweave.specs.Runs.{Outcome, Refused, ComesTo, AnswersRun, answer_of, SaysRun, SayNoRun, AreNoCommand, NamesScript, RefusesInput, IsOfRunning, IsOfRun, IsObserved, FollowsMissing};
ghost use Rattle.ajweave.specs.Answers.{ReadFailed, AnswersPrinted, AnswersRead, AnswersDone, IsRefused, IsValid, WritesWeaving, BehavesAsWritten, WritesExactly, WritesUntouched, WritesDeclared, OnTold, Commanded, CommandedTo, CommandedSome, KeepsShelf, Prints, PrintsFor};

use crate::command::command;
use crate::report::{report, report_run, usage};
use crate::run::run_command;
use crate::status::Status;
use crate::weave::weave;
use aj_outside::{Shelf, Sink};
use run_lines::read_run;
use std::alloc::Global;

/// Does what the words of a command line say, over a shelf of files and a sink for what is printed.
///
/// Two commands are built. `weave IN OUT` weaves the classes under IN and writes `OUT/NAME.class` for each
/// class. `run IN ENTRY STEPS [SCRIPT]` runs the classes under IN from a static method for at most so many
/// steps, takes the answers to native calls from the file of a script, and prints what was observed.
pub fn weaver_main<S: Shelf, O: Sink>(
    alloc: Global,
    words: &[String],
    shelf: &mut S,
    out: &mut O,
) -> Status
    requires can_read { S.faults shelf.old < last_count }
    requires can_miss { S.missing shelf.old < last_count }
    requires can_write { S.write_faults shelf.old < last_count }
    requires can_print { O.faults out.old < last_count }

    // The written files are those of one weaving of the input, which has all of the next four.
    ensures headline { result ≡ Status.Done → CommandedTo (command_of (texts words.now)) (S.held shelf.old) (S.held shelf.new) WritesWeaving }
    // From every entry method the written classes print and end exactly as and when the join point
    // machine does on the original classes and aspects.
    ensures behaves { result ≡ Status.Done → CommandedTo (command_of (texts words.now)) (S.held shelf.old) (S.held shelf.new) BehavesAsWritten }
    ensures written { result ≡ Status.Done → CommandedTo (command_of (texts words.now)) (S.held shelf.old) (S.held shelf.new) WritesExactly }
    ensures untouched { result ≡ Status.Done → CommandedTo (command_of (texts words.now)) (S.held shelf.old) (S.held shelf.new) WritesUntouched }
    ensures declared { result ≡ Status.Done → CommandedTo (command_of (texts words.now)) (S.held shelf.old) (S.held shelf.new) WritesDeclared }

    // When each answer comes.
    ensures usage { AreNoCommand (texts words.now) → AnswersPrinted Status.Usage result }
    ensures usage_only { result ≡ Status.Usage → AreNoCommand (texts words.now) }
    ensures read_fault { result ≡ Status.ReadFault → ReadFailed (S.held shelf.old) (S.faults shelf.old) (S.faults shelf.new) (S.missing shelf.old) (S.missing shelf.new) }
    ensures read_failed { Rose (S.faults shelf.old) (S.faults shelf.new) → result ≡ Status.ReadFault }
    // On a shelf that doesn't tell, a file was missing. Where it was listed, the read failed. Where it was
    // not, it is that of the script; a class file that is too long is told first.
    ensures read_missed { S.held shelf.old ≡ None → Rose (S.missing shelf.old) (S.missing shelf.new) → (result ≡ Status.ReadFault) ⊎ FollowsMissing (texts words.now) result (O.written out.old) (O.written out.new) }
    ensures write_fault { (result ≡ Status.WriteFault) ↔ Rose (S.write_faults shelf.old) (S.write_faults shelf.new) }
    ensures print_fault { (result ≡ Status.PrintFault) ↔ Rose (O.faults out.old) (O.faults out.new) }
    ensures refused { OnTold (command_of (texts words.now)) (S.held shelf.old) (λ folders files. (refusal : Refusal) → IsRefused folders.input files refusal → AnswersRead (Status.Refused refusal) result) }
    ensures refused_only { (refusal : Refusal) → result ≡ Status.Refused refusal → RefusesInput (texts words.now) (S.held shelf.old) refusal }
    ensures no_script { (name : List ℕ) → result ≡ Status.Refused (NoScript name) → NamesScript (texts words.now) name × Rose (S.missing shelf.old) (S.missing shelf.new) }
    ensures complete { OnTold (command_of (texts words.now)) (S.held shelf.old) (λ folders files. IsValid folders.input files → AnswersDone result) }
    ensures done_only { result ≡ Status.Done → Commanded (command_of (texts words.now)) (S.held shelf.old) (λ folders files. IsValid folders.input files) }

    // What a run answers and prints: its first fault, or what is observed of it within its steps.
    ensures ran { (run : RunCommand) → AreRunWords (texts words.now) run → AnswersRun run (S.held shelf.old) result (O.written out.old) (O.written out.new) }
    ensures ran_exactly { (run : RunCommand) → AreRunWords (texts words.now) run → IfSome (S.held shelf.old) (λ files. (outcome : Outcome) → ComesTo run files outcome → AnswersRead (answer_of outcome) result) }
    ensures ran_only { IsOfRun result → SaysRun (texts words.now) (S.held shelf.old) (IsObserved result) }

    // What the shelf and the sink hold afterwards.
    ensures shelf_kept { KeepsShelf result (S.held shelf.old) (S.held shelf.new) }
    ensures written_some { result ≡ Status.WriteFault → CommandedSome (command_of (texts words.now)) (S.held shelf.old) (S.held shelf.new) }
    ensures without_memory { result ≡ Status.OutOfMemory → (S.held shelf.new ≡ S.held shelf.old) ⊎ CommandedSome (command_of (texts words.now)) (S.held shelf.old) (S.held shelf.new) }
    ensures printed { SayNoRun (texts words.now) → Prints result (command_of (texts words.now)) (S.held shelf.old) (O.written out.old) (O.written out.new) }
{
    match command(words) {
        None => other_command(alloc, words, shelf, out),
        Some(command) => {
            let ended = weave(alloc, command.input, command.output, shelf);
            report(alloc, ended, out)
        }
    }
}

/// Does what words say that are no weaving: a run, or nothing that is built.
fn other_command<S: Shelf, O: Sink>(
    alloc: Global,
    words: &[String],
    shelf: &mut S,
    out: &mut O,
) -> Status
    requires no_weaving { command_of (texts words.now) ≡ None }
    requires can_read { S.faults shelf.old < last_count }
    requires can_miss { S.missing shelf.old < last_count }
    ensures usage { SayNoRun (texts words.now) → PrintsFor Status.Usage usage_line result (O.written out.old) (O.written out.new) }
    ensures usage_only { result ≡ Status.Usage → SayNoRun (texts words.now) }
    ensures read_fault { result ≡ Status.ReadFault → ReadFailed (S.held shelf.old) (S.faults shelf.old) (S.faults shelf.new) (S.missing shelf.old) (S.missing shelf.new) }
    ensures read_failed { Rose (S.faults shelf.old) (S.faults shelf.new) → result ≡ Status.ReadFault }
    ensures read_missed { S.held shelf.old ≡ None → Rose (S.missing shelf.old) (S.missing shelf.new) → (result ≡ Status.ReadFault) ⊎ FollowsMissing (texts words.now) result (O.written out.old) (O.written out.new) }
    ensures write_fault { (result ≢ Status.WriteFault) × (S.write_faults shelf.new ≡ S.write_faults shelf.old) }
    ensures print_fault { ComesWithRise (result ≡ Status.PrintFault) (O.faults out.old) (O.faults out.new) }
    ensures refused_only { (refusal : Refusal) → result ≡ Status.Refused refusal → SaysRun (texts words.now) (S.held shelf.old) (λ run files. ComesTo run files (Refused refusal)) × IsOfRunning refusal }
    ensures no_script { (name : List ℕ) → result ≡ Status.Refused (NoScript name) → NamesScript (texts words.now) name × Rose (S.missing shelf.old) (S.missing shelf.new) }
    ensures never_done { result ≢ Status.Done }
    ensures ran { (run : RunCommand) → AreRunWords (texts words.now) run → AnswersRun run (S.held shelf.old) result (O.written out.old) (O.written out.new) }
    ensures ran_exactly { (run : RunCommand) → AreRunWords (texts words.now) run → IfSome (S.held shelf.old) (λ files. (outcome : Outcome) → ComesTo run files outcome → AnswersRead (answer_of outcome) result) }
    ensures ran_only { IsOfRun result → SaysRun (texts words.now) (S.held shelf.old) (IsObserved result) }
    ensures kept { S.held shelf.new ≡ S.held shelf.old }
{
    match read_run(alloc, words) {
        Ok(Some(run)) => {
            let ended = run_command(alloc, run, shelf);
            report_run(alloc, ended, out)
        }
        Ok(None) => usage(out),
        Err(_) => Status::OutOfMemory,
    }
}
