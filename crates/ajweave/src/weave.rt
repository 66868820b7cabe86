//! `weave IN OUT`, but for what it prints: all reads come first, then everything is made in memory,
//! and then the files are written in byte order of their names.
ghost use Rattle.std.specs.Prelude.{◌≡◌, ◌↔◌, ◌<◌, List, IfOk, OnOk, Err, true};
ghost use Rattle.std.specs.List.{All};
ghost use Rattle.std.specs.Option.{option_map};
ghost use Rattle.aj_outside.specs.Counts.{ComesWithRise, last_count};
ghost use Rattle.aj_outside.specs.Files.{is_under, put_each, put_file, OthersStay};
ghost use Rattle.weave_plan.specs.Faults.{AreTaken, AreRefused};
ghost use Rattle.weave_plan.specs.Plan.{IsPlan, files_of};
ghost use Rattle.ajweave.specs.Answers.{ReadFailed};
ghost use Rattle.ajweave.specs.Steps.{OnStop, IsRefusal, IsWriteStop, IsInputRefusal, IsWeavingStop, PutsSomeTold, Ends};

use crate::input::{Kept, check_sizes, listed, no_class, read_inputs};
use crate::status::Refusal;
use crate::stop::{Stop, name_within};
use aj_outside::{Shelf, ShelfFault};
use std::alloc::Global;
use weave_plan::{NamedFile, PlanFault, plan};

/// Weaves the classes of a folder of the shelf and writes them to another.
///
/// # Errors
/// Why it stopped: a failed read or write, a refusal, or want of memory. Nothing is written before all outputs are made.
pub(crate) fn weave<S: Shelf>(
    alloc: Global,
    input: &str,
    output: &str,
    shelf: &mut S,
) -> Result<(), Stop>
    requires can_read { S.faults shelf.old < last_count }
    requires can_miss { S.missing shelf.old < last_count }
    ensures ended { Ends result (record { input = input.now; output = output.now }) (S.held shelf.old) (S.held shelf.new) }
    ensures own { OnStop result IsWeavingStop }
    ensures read { (result ≡ Err Stop.Read) ↔ ReadFailed (S.held shelf.old) (S.faults shelf.old) (S.faults shelf.new) (S.missing shelf.old) (S.missing shelf.new) }
    ensures failed { ComesWithRise (result ≡ Err Stop.Write) (S.write_faults shelf.old) (S.write_faults shelf.new) }
{
    let names = listed(alloc, input, shelf)?;
    let inputs = read_inputs(alloc, Kept::Inputs, names, shelf)?;
    check_sizes(alloc, input, inputs.as_slice())?;
    let outputs = planned(alloc, input, inputs.as_slice(), output)?;
    write_all(shelf, outputs.as_slice())
}

/// The files to write.
fn planned(
    alloc: Global,
    input: &str,
    inputs: &[NamedFile],
    output: &str,
) -> Result<Vec<NamedFile>, Stop>
    requires under { All (λ file. is_under input.now file.name ≡ true) inputs.now }
    ensures planned { IfOk result (λ outputs. IsPlan (files_of inputs.now) output.now (files_of outputs.items)) }
    ensures taken { OnOk result (AreTaken (files_of inputs.now)) }
    ensures stopped { OnStop result (IsRefusal (IsInputRefusal input.now (files_of inputs.now))) }
{
    match plan(alloc, inputs, output) {
        Ok(outputs) => Ok(outputs),
        Err(fault) => Err(refused(alloc, input, inputs, fault)),
    }
}

/// The refusal of these inputs. It is `Memory` where that ran out.
fn refused(alloc: Global, folder: &str, inputs: &[NamedFile], fault: PlanFault) -> Stop
    requires under { All (λ file. is_under folder.now file.name ≡ true) inputs.now }
    requires refused { AreRefused (files_of inputs.now) fault }
    ensures { IsRefusal (IsInputRefusal folder.now (files_of inputs.now)) result }
{
    match fault {
        PlanFault::Memory => Stop::Memory,
        PlanFault::Class(place, fault) => no_class(alloc, folder, inputs, place, fault),
        PlanFault::World(fault) => Stop::Refused(Refusal::World(fault)),
        PlanFault::NotBuilt(place) => match name_within(alloc, folder, &inputs[place].name) {
            Ok(name) => Stop::Refused(Refusal::NotBuilt(name)),
            Err(_) => Stop::Memory,
        },
    }
}

/// Writes the files one after the other.
fn write_all<S: Shelf>(shelf: &mut S, files: &[NamedFile]) -> Result<(), Stop>
    ensures written { OnOk result (S.held shelf.new ≡ option_map (λ before. put_each before (files_of files.now)) (S.held shelf.old)) }
    ensures some { OnStop result (λ fault. PutsSomeTold (files_of files.now) (S.held shelf.old) (S.held shelf.new)) }
    ensures stopped { OnStop result IsWriteStop }
    ensures failed { ComesWithRise (result ≡ Err Stop.Write) (S.write_faults shelf.old) (S.write_faults shelf.new) }
    ensures reads { (S.faults shelf.new ≡ S.faults shelf.old) × (S.missing shelf.new ≡ S.missing shelf.old) }
{
    for file in files {
        write_file(shelf, file)?;
    }
    Ok(())
}

/// Writes a file.
fn write_file<S: Shelf>(shelf: &mut S, file: &NamedFile) -> Result<(), Stop>
    ensures written { OnOk result (S.held shelf.new ≡ option_map (λ files. put_file files file.now.name file.now.bytes.items) (S.held shelf.old)) }
    ensures refused { OnStop result (λ fault. OthersStay file.now.name (S.held shelf.old) (S.held shelf.new)) }
    ensures stopped { OnStop result IsWriteStop }
    ensures failed { ComesWithRise (result ≡ Err Stop.Write) (S.write_faults shelf.old) (S.write_faults shelf.new) }
    ensures reads { (S.faults shelf.new ≡ S.faults shelf.old) × (S.missing shelf.new ≡ S.missing shelf.old) }
{
    match shelf.write(&file.name, file.bytes.as_slice()) {
        Ok(()) => Ok(()),
        Err(ShelfFault::Memory) => Err(Stop::Memory),
        Err(ShelfFault::Failed | ShelfFault::NoSuchFile) => Err(Stop::Write),
    }
}
