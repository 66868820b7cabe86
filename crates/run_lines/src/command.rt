//! The words of the command.

ghost use Rattle.std.specs.Prelude.{◌≡◌, List, map, IfOk};
ghost use Rattle.std.specs.List.{list_all};
ghost use Rattle.std.specs.Option.{option_map};
ghost use Rattle.std.specs.String.{string_bytes};
ghost use Rattle.run_lines.specs.Reading.{Finds};
ghost use Rattle.run_lines.specs.CommandWords.{is_plain, RunCommand, IsRunOf, AreRunWords};

use crate::entry::{EntryWords, read_entry};
use crate::numbers::read_steps;
use std::alloc::{AllocError, Global};

/// What the command `run` is told.
#[derive(Drop)]
pub struct RunWords<'a> {
    /// The folder whose classes are run.
    pub input: &'a str,
    /// The entry, as it is written.
    pub word: &'a str,
    /// Where the run begins.
    pub entry: EntryWords,
    /// How many steps it takes at most.
    pub steps: u64,
    /// The file of the script, if one is named.
    pub script: Option<&'a str>,
}

fn is_plain(word: &String) -> bool
    ensures { result ≡ is_plain (string_bytes word.now) }
{
    let word = word.as_str();
    !word.is_empty() && !word.starts_with('-')
}

fn are_plain(words: &[String]) -> bool
    ensures { result ≡ list_all (λ word. is_plain (string_bytes word)) words.now }
{
    words.iter().all(is_plain)
}

/// The run that the words behind the command's name say.
fn run_words<'a>(
    alloc: Global,
    input: &'a str,
    word: &'a str,
    steps: &str,
    script: Option<&'a str>,
) -> Result<Option<RunWords<'a>>, AllocError>
    ensures { IfOk result (λ found. Finds {Y = RunCommand} (λ run. record { input = run.input.now; word = run.word.now; entry = run.entry; steps = run.steps; script = option_map (λ name. name.now) run.script }) (λ run. IsRunOf run input.now word.now steps.now (option_map (λ name. name.now) script.entry)) found) }
{
    let Some(steps) = read_steps(steps.as_bytes()) else {
        return Ok(None);
    };
    let Some(entry) = read_entry(alloc, word.as_bytes())? else {
        return Ok(None);
    };
    Ok(Some(RunWords {
        input,
        word,
        entry,
        steps,
        script,
    }))
}

/// The run that the words of a command line say: `run IN ENTRY STEPS`, and the file of a script behind
/// them if there is one. No word is empty or begins with `-`. `None` exactly where the words are of
/// another form.
///
/// # Errors
/// Where there is no memory.
pub fn read_run(alloc: Global, words: &[String]) -> Result<Option<RunWords<'_>>, AllocError>
    ensures { IfOk result (λ found. Finds {Y = RunCommand} (λ run. record { input = run.input.now; word = run.word.now; entry = run.entry; steps = run.steps; script = option_map (λ name. name.now) run.script }) (λ run. AreRunWords (map string_bytes words.now) run) found) }
{
    if !are_plain(words) {
        return Ok(None);
    }
    match words {
        [name, input, entry, steps] if name.as_str() == "run" => {
            run_words(alloc, input.as_str(), entry.as_str(), steps.as_str(), None)
        }
        [name, input, entry, steps, script] if name.as_str() == "run" => {
            let script = Some(script.as_str());
            run_words(
                alloc,
                input.as_str(),
                entry.as_str(),
                steps.as_str(),
                script,
            )
        }
        _ => Ok(None),
    }
}
