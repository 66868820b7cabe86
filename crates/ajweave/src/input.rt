//! Reading the input: the list of names, and then each file of a class or an aspect.
ghost use Rattle.std.specs.Prelude.{◌≡◌, ◌↔◌, ◌<◌, List, map, None, IfOk, IfSome, OnOk, IsSome, Err, true, ◌≤◌, ◌++◌, ◌∷◌, [], length};
ghost use Rattle.std.specs.List.{filter, find, All};
ghost use Rattle.aj_outside.specs.Counts.{ComesWithRise, last_count};
ghost use Rattle.aj_outside.specs.Files.{is_under, file_at, names_under};
ghost use Rattle.jp_model.specs.Input.{is_big};
ghost use Rattle.weave_plan.specs.Faults.{AreUnread};
ghost use Rattle.weave_plan.specs.Plan.{files_of};
ghost use Rattle.ajweave.specs.Answers.{ReadFailed, most_names};
ghost use Rattle.ajweave.specs.Steps.{OnStop, IsRefusal, IsReadStop, IsNoWriteStop, AreListed, IsMany, IsBig, IsNamed, IsClassRefusal, cut_at, keeps};

use crate::status::Refusal;
use crate::stop::{Stop, name_within};
use aj_outside::{Name, Shelf};
use class_format::ClassFault;
use std::alloc::Global;
use weave_plan::{NamedFile, ReadFault};

/// How many names a folder may have.
const MOST_NAMES: usize = 65_536;

/// How many bytes a file may have.
pub(crate) const MOST_BYTES: usize = 16_777_216;

/// Which of the files of a folder are read.
#[derive(Clone, Copy, Debug)]
pub(crate) enum Kept {
    /// Those of classes and of aspects.
    Inputs,
    /// Those of classes.
    Classes,
}

/// The names under a folder, in byte order, of which there may be at most 65,536.
///
/// # Errors
/// `Read` where the shelf fails, the refusal `ManyFiles` where there are more, and `Memory`.
pub(crate) fn listed<S: Shelf>(
    alloc: Global,
    folder: &str,
    shelf: &mut S,
) -> Result<Vec<Name>, Stop>
    ensures all { IfOk result (λ names. IfSome (S.held shelf.old) (λ files. AreListed folder.now files names.items)) }
    ensures under { IfOk result (λ names. All (λ name. is_under folder.now name ≡ true) names.items) }
    ensures stopped { OnStop result (IsNoWriteStop (λ refusal. IfSome (S.held shelf.old) (λ files. IsMany (length (names_under folder.now files)) refusal))) }
    ensures many { OnStop result (IsNoWriteStop (λ refusal. refusal ≡ Refusal.ManyFiles)) }
    ensures failed { ComesWithRise (result ≡ Err Stop.Read) (S.faults shelf.old) (S.faults shelf.new) }
    ensures writes { S.write_faults shelf.new ≡ S.write_faults shelf.old }
    ensures reads { S.missing shelf.new ≡ S.missing shelf.old }
    ensures kept { S.held shelf.new ≡ S.held shelf.old }
{
    match shelf.list(alloc, folder, MOST_NAMES as u32 + 1) {
        Ok(names) => at_most(names),
        Err(fault) => Err(Stop::reading(fault)),
    }
}

/// These names, of which there may be at most 65,536.
fn at_most(names: Vec<Name>) -> Result<Vec<Name>, Stop>
    ensures whole { IfOk result (λ listed. (listed.items ≡ names.items) × (length names.items ≤ most_names)) }
    ensures stopped { OnStop result (IsRefusal (IsMany (length names.items))) }
{
    if names.len() > MOST_NAMES {
        return Err(Stop::Refused(Refusal::ManyFiles));
    }
    Ok(names)
}

/// The files that are kept among these names, in the same order.
///
/// # Errors
/// `Read` where the shelf fails or a file is gone, and `Memory`.
pub(crate) fn read_inputs<S: Shelf>(
    alloc: Global,
    kept: Kept,
    names: Vec<Name>,
    shelf: &mut S,
) -> Result<Vec<NamedFile>, Stop>
    requires held { IfSome (S.held shelf.old) (λ files. All (λ name. IsSome (file_at files name)) names.items) }
    requires can_read { S.faults shelf.old < last_count }
    requires can_miss { S.missing shelf.old < last_count }
    ensures given { IfOk result (λ inputs. IfSome (S.held shelf.old) (λ files. files_of inputs.items ≡ map (cut_at files) (filter (keeps kept) names.items))) }
    ensures named { IfOk result (λ inputs. map (λ input. input.name) inputs.items ≡ filter (keeps kept) names.items) }
    ensures stopped { OnStop result IsReadStop }
    ensures failed { (result ≡ Err Stop.Read) ↔ ReadFailed (S.held shelf.old) (S.faults shelf.old) (S.faults shelf.new) (S.missing shelf.old) (S.missing shelf.new) }
    ensures still { OnOk result ((S.faults shelf.new ≡ S.faults shelf.old) × (S.missing shelf.new ≡ S.missing shelf.old)) }
    ensures writes { S.write_faults shelf.new ≡ S.write_faults shelf.old }
    ensures kept { S.held shelf.new ≡ S.held shelf.old }
{
    let mut files = Vec::new(alloc);
    for name in names {
        if !kept.keeps(name.as_str()) {
            continue;
        }
        let file = read_input(alloc, name, shelf)?;
        push_file(&mut files, file)?;
    }
    Ok(files)
}

/// The file of this name.
fn read_input<S: Shelf>(alloc: Global, name: Name, shelf: &mut S) -> Result<NamedFile, Stop>
    requires held { IfSome (S.held shelf.old) (λ files. IsSome (file_at files name)) }
    requires can_read { S.faults shelf.old < last_count }
    requires can_miss { S.missing shelf.old < last_count }
    ensures given { IfOk result (λ input. IfSome (S.held shelf.old) (λ files. (input.name, input.bytes.items) ≡ cut_at files name)) }
    ensures named { IfOk result (λ input. input.name ≡ name) }
    ensures stopped { OnStop result IsReadStop }
    ensures failed { (result ≡ Err Stop.Read) ↔ ReadFailed (S.held shelf.old) (S.faults shelf.old) (S.faults shelf.new) (S.missing shelf.old) (S.missing shelf.new) }
    ensures still { OnOk result ((S.faults shelf.new ≡ S.faults shelf.old) × (S.missing shelf.new ≡ S.missing shelf.old)) }
    ensures writes { S.write_faults shelf.new ≡ S.write_faults shelf.old }
    ensures kept { S.held shelf.new ≡ S.held shelf.old }
{
    match shelf.read(alloc, &name, MOST_BYTES as u32 + 1) {
        Ok(bytes) => Ok(NamedFile { name, bytes }),
        Err(fault) => Err(Stop::reading(fault)),
    }
}

/// That none of the files is too long.
///
/// # Errors
/// The refusal `BigFile` of the first that is, and `Memory`.
pub(crate) fn check_sizes(alloc: Global, folder: &str, files: &[NamedFile]) -> Result<(), Stop>
    requires under { All (λ file. is_under folder.now file.name ≡ true) files.now }
    ensures small { OnOk result (find is_big (files_of files.now) ≡ None) }
    ensures stopped { OnStop result (IsRefusal (IsBig folder.now (files_of files.now))) }
{
    for file in files {
        if file.bytes.len() > MOST_BYTES {
            return Err(too_big(alloc, folder, &file.name));
        }
    }
    Ok(())
}

/// The refusal of a file that is too long, by its whole name. It is `Memory` where that ran out.
fn too_big(alloc: Global, folder: &str, name: &Name) -> Stop
    requires under { is_under folder.now name.now ≡ true }
    ensures refused { IsRefusal (IsNamed (λ rest. Refusal.BigFile rest) folder.now name.now) result }
{
    match name_within(alloc, folder, name) {
        Ok(name) => Stop::Refused(Refusal::BigFile(name)),
        Err(_) => Stop::Memory,
    }
}

/// The refusal of the class file at a place, with its first fault. It is `Memory` where that ran out.
pub(crate) fn no_class(
    alloc: Global,
    folder: &str,
    files: &[NamedFile],
    place: usize,
    fault: ClassFault,
) -> Stop
    requires under { All (λ file. is_under folder.now file.name ≡ true) files.now }
    requires first { AreUnread (files_of files.now) (ReadFault.Class place fault) }
    ensures { IsRefusal (IsClassRefusal folder.now (files_of files.now)) result }
{
    match name_within(alloc, folder, &files[place].name) {
        Ok(name) => Stop::Refused(Refusal::Class(name, fault)),
        Err(_) => Stop::Memory,
    }
}

/// Adds a file to the last ones.
fn push_file(files: &mut Vec<NamedFile>, file: NamedFile) -> Result<(), Stop>
    ensures added { OnOk result (files.new.items ≡ files.old.items ++ file ∷ []) }
    ensures stopped { OnStop result (IsRefusal (λ refusal. ⊥)) }
{
    match files.push(file) {
        Ok(()) => Ok(()),
        Err(_) => Err(Stop::Memory),
    }
}

impl Kept {
    ghost use Rattle.std.specs.Prelude.{◌≡◌};
    ghost use Rattle.ajweave.specs.Steps.{keeps};

    /// Whether a file of this name is kept.
    fn keeps(self, name: &str) -> bool
        ensures { result ≡ keeps self name.now }
    {
        match self {
            Kept::Inputs => is_input(name),
            Kept::Classes => is_class_file(name),
        }
    }
}

ghost use Rattle.jp_model.specs.Input.{is_input, is_class_file};

/// Whether a file of this name is one of a class or of an aspect.
fn is_input(name: &str) -> bool
    ensures { result ≡ is_input name.now }
{
    name.ends_with(".class") || name.ends_with(".aj")
}

/// Whether a file of this name is one of a class.
fn is_class_file(name: &str) -> bool
    ensures { result ≡ is_class_file name.now }
{
    name.ends_with(".class")
}
