//! The file of a script: it is read behind the input, and judged behind the sizes of that.
ghost use Rattle.std.specs.Prelude.{◌≡◌, ◌<◌, Some, IfOk, IfSome, Err};
ghost use Rattle.std.specs.Option.{option_map};
ghost use Rattle.aj_outside.specs.Counts.{ComesWithRise, last_count};
ghost use Rattle.machine_steps.specs.Runs.{answers_left};
ghost use Rattle.ajweave.specs.Runs.{NotTaken, Answers, ReadsFile};
ghost use Rattle.ajweave.specs.Steps.{OnStop, IsRefusal, IsReadStop, IsScriptFile, IsOfScript, IsMissing, ReadsScriptFile, Settles};

use crate::input::MOST_BYTES;
use crate::status::Refusal;
use crate::stop::Stop;
use aj_outside::{Name, Shelf, ShelfFault};
use machine_values::Script;
use run_lines::{ScriptFault, read_script};
use sqlite_items::Items;
use std::alloc::Global;
use weave_plan::NamedFile;

/// What was found of a script.
#[derive(Debug, Drop)]
pub(crate) enum ScriptFile {
    /// None is named.
    Unnamed,
    /// There is no file of this name.
    Missing(Name),
    /// Its file, of which no more bytes were read than tell whether it is too long.
    Found(NamedFile),
}

/// The file of the script that is named, if one is.
///
/// # Errors
/// `Read` where the shelf fails, and `Memory`.
pub(crate) fn script_file<S: Shelf>(
    alloc: Global,
    script: Option<&str>,
    shelf: &mut S,
) -> Result<ScriptFile, Stop>
    requires can_read { S.faults shelf.old < last_count }
    requires can_miss { S.missing shelf.old < last_count }
    ensures found { IfOk result (λ file. IfSome (S.held shelf.old) (λ files. IsScriptFile (option_map (λ name. name.now) script.entry) files file)) }
    ensures stopped { OnStop result IsReadStop }
    ensures failed { ComesWithRise (result ≡ Err Stop.Read) (S.faults shelf.old) (S.faults shelf.new) }
    ensures missed { ComesWithRise (IsMissing result) (S.missing shelf.old) (S.missing shelf.new) }
    ensures named { IfOk result (IsOfScript (option_map (λ name. name.now) script.entry)) }
    ensures writes { S.write_faults shelf.new ≡ S.write_faults shelf.old }
    ensures kept { S.held shelf.new ≡ S.held shelf.old }
{
    match script {
        None => Ok(ScriptFile::Unnamed),
        Some(name) => named_script(alloc, name, shelf),
    }
}

/// The file of the script of this name.
fn named_script<S: Shelf>(alloc: Global, name: &str, shelf: &mut S) -> Result<ScriptFile, Stop>
    requires can_read { S.faults shelf.old < last_count }
    requires can_miss { S.missing shelf.old < last_count }
    ensures found { IfOk result (λ file. IfSome (S.held shelf.old) (λ files. IsScriptFile (Some name.now) files file)) }
    ensures named { IfOk result (IsOfScript (Some name.now)) }
    ensures stopped { OnStop result IsReadStop }
    ensures failed { ComesWithRise (result ≡ Err Stop.Read) (S.faults shelf.old) (S.faults shelf.new) }
    ensures missed { ComesWithRise (IsMissing result) (S.missing shelf.old) (S.missing shelf.new) }
    ensures writes { S.write_faults shelf.new ≡ S.write_faults shelf.old }
    ensures kept { S.held shelf.new ≡ S.held shelf.old }
{
    let name = match Name::from_str(alloc, name) {
        Ok(name) => name,
        Err(_) => return Err(Stop::Memory),
    };
    match shelf.read(alloc, &name, MOST_BYTES as u32 + 1) {
        Ok(bytes) => Ok(ScriptFile::Found(NamedFile { name, bytes })),
        Err(ShelfFault::NoSuchFile) => Ok(ScriptFile::Missing(name)),
        Err(ShelfFault::Failed) => Err(Stop::Read),
        Err(ShelfFault::Memory) => Err(Stop::Memory),
    }
}

/// The answers of a script; none where none is named.
///
/// # Errors
/// The refusals `NoScript`, `BigFile` and `Script`, and `Memory`.
pub(crate) fn script_of(alloc: Global, file: ScriptFile) -> Result<Script, Stop>
    ensures taken { IfOk result (λ script. Settles (ReadsScriptFile file) (Answers (answers_left script))) }
    ensures stopped { OnStop result (IsRefusal (λ refusal. Settles (ReadsScriptFile file) (NotTaken refusal))) }
{
    match file {
        ScriptFile::Unnamed => Ok(Script {
            answers: Items::new(alloc),
            next: 0,
        }),
        ScriptFile::Missing(name) => Err(Stop::Refused(Refusal::NoScript(name))),
        ScriptFile::Found(file) => script_in(alloc, file),
    }
}

/// The answers that the file of a script has.
fn script_in(alloc: Global, file: NamedFile) -> Result<Script, Stop>
    ensures taken { IfOk result (λ script. Settles (ReadsFile file.name file.bytes.items) (Answers (answers_left script))) }
    ensures stopped { OnStop result (IsRefusal (λ refusal. Settles (ReadsFile file.name file.bytes.items) (NotTaken refusal))) }
{
    if file.bytes.len() > MOST_BYTES {
        return Err(Stop::Refused(Refusal::BigFile(file.name)));
    }
    match read_script(alloc, file.bytes.as_slice()) {
        Ok(script) => Ok(script),
        Err(ScriptFault::Line(line)) => Err(Stop::Refused(Refusal::Script(file.name, line))),
        Err(ScriptFault::Memory) => Err(Stop::Memory),
    }
}
