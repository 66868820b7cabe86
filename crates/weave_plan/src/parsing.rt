//! What each file is.

ghost use Rattle.std.specs.Prelude.{◌≡◌, IfOk, IfErr, OnOk, None};
ghost use Rattle.std.specs.List.{AllZip, find};
ghost use Rattle.class_format.specs.Gives.{Fails};
ghost use Rattle.class_format.specs.Reading.{reading};
ghost use Rattle.jp_model.specs.Input as input;
ghost use Rattle.weave_plan.specs.Faults.{is_faulty, AreRefused};
ghost use Rattle.weave_plan.specs.Plan.{files_of};
ghost use Rattle.weave_plan.specs.Parsed as word;

use crate::planning::{NamedFile, PlanFault};
use aspect_form::{AspectFault, read_aspect};
use class_file::ClassFile;
use class_format::{ClassFault, read_class};
use jp_model::FirstAspect;
use std::alloc::Global;

/// What a file is.
#[derive(Debug, Drop)]
pub(crate) enum Parsed {
    /// A class, with the number of bytes of its file.
    Class(ClassFile, usize),
    Aspect(FirstAspect),
    /// The file of an aspect that is not of the form that is built.
    Other,
}

/// Whether a file is that of a class; another one is that of an aspect.
pub(crate) fn is_class_file(name: &str) -> bool
    ensures { result ≡ input.is_class_file name.now }
{
    name.as_bytes().ends_with(b".class")
}

/// The class that the bytes spell.
fn parsed_class(alloc: Global, bytes: &[u8]) -> Result<Parsed, ClassFault>
    ensures parsed { IfOk result (λ found. word.IsParsedClass bytes.now found) }
    ensures fault { IfErr result (λ fault. Fails fault (reading bytes.now)) }
{
    match read_class(alloc, bytes) {
        Ok(class) => Ok(Parsed::Class(class, bytes.len())),
        Err(fault) => Err(fault),
    }
}

/// The aspect whose text the bytes are.
fn parsed_aspect(alloc: Global, bytes: &[u8]) -> Result<Parsed, PlanFault>
    ensures parsed { IfOk result (λ found. word.IsParsedAspect bytes.now found) }
    ensures memory { IfErr result (λ fault. fault ≡ PlanFault.Memory) }
{
    match read_aspect(alloc, bytes) {
        Ok(aspect) => Ok(Parsed::Aspect(aspect)),
        Err(AspectFault::NotBuilt) => Ok(Parsed::Other),
        Err(AspectFault::Memory) => Err(PlanFault::Memory),
    }
}

/// The fault of the file at a place.
fn fault_at(place: usize, fault: ClassFault) -> PlanFault
    ensures { result ≡ word.fault_at place fault }
{
    match fault {
        ClassFault::Memory => PlanFault::Memory,
        fault => PlanFault::Class(place, fault),
    }
}

/// What the file at this place is.
fn parsed_file(alloc: Global, place: usize, file: &NamedFile) -> Result<Parsed, PlanFault>
    ensures parsed { IfOk result (λ found. word.IsParsed (file.now.name, file.now.bytes.items) found) }
    ensures fault { IfErr result (word.IsFaultOf place (file.now.name, file.now.bytes.items)) }
{
    if !is_class_file(file.name.as_str()) {
        return parsed_aspect(alloc, file.bytes.as_slice());
    }
    match parsed_class(alloc, file.bytes.as_slice()) {
        Ok(parsed) => Ok(parsed),
        Err(fault) => Err(fault_at(place, fault)),
    }
}

/// What the files are, in their order.
///
/// # Errors
/// `Class` of the first class file that is none, and `Memory`.
pub(crate) fn parsed_files(alloc: Global, files: &[NamedFile]) -> Result<Vec<Parsed>, PlanFault>
    ensures parsed { IfOk result (λ all. AllZip word.IsParsed (files_of files.now) all.items) }
    ensures read { OnOk result (find is_faulty (files_of files.now) ≡ None) }
    ensures refused { IfErr result (AreRefused (files_of files.now)) }
{
    let mut all = Vec::new(alloc);
    for (place, file) in files.iter().enumerate() {
        let one = parsed_file(alloc, place, file)?;
        all.push(one)?;
    }
    Ok(all)
}
