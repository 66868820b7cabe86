//! The classes of files, without what stands beside them.

ghost use Rattle.std.specs.Prelude.{◌≡◌, IfOk, IfErr, OnOk, None, IsTrue};
ghost use Rattle.std.specs.List.{AllByRecursion, find};
ghost use Rattle.class_file.specs.WellFormed.{is_well_formed};
ghost use Rattle.weave_plan.specs.declared.class_files.ReadFault.TheVariants.{Memory};
ghost use Rattle.weave_plan.specs.Faults.{is_faulty, AreUnread, IsReadOf, IsUnreadAt, unread_at};
ghost use Rattle.weave_plan.specs.Plan.{files_of};
ghost use Rattle.weave_plan.specs.Worlds.{classes_of};

use crate::parsing::is_class_file;
use crate::planning::NamedFile;
use class_file::ClassFile;
use class_format::{ClassFault, read_class};
use std::alloc::{AllocFailed, Global};
use thiserror::Error;

/// Why no classes were read.
#[derive(Debug, Drop, PartialEq, Eq, Error)]
pub enum ReadFault {
    /// The class file at this place of the list is the first that is none, with its first fault.
    #[error("the class file at place {0}: {1}")]
    Class(usize, ClassFault),
    /// Memory ran out.
    #[error("out of memory")]
    Memory,
}

impl<T: Drop> From<AllocFailed<T>> for ReadFault {
    ghost from_gives = { λ _ e. e ≡ Memory };

    fn from(_error: AllocFailed<T>) -> ReadFault {
        ReadFault::Memory
    }
}

/// Why the class at a place was not read.
fn unread_at(place: usize, fault: ClassFault) -> ReadFault
    ensures { result ≡ unread_at place fault }
{
    match fault {
        ClassFault::Memory => ReadFault::Memory,
        fault => ReadFault::Class(place, fault),
    }
}

/// The class that the file at this place says, where it is one of a class.
fn class_at(alloc: Global, place: usize, file: &NamedFile) -> Result<Option<ClassFile>, ReadFault>
    ensures class { IfOk result (IsReadOf (file.now.name, file.now.bytes.items)) }
    ensures unread { IfErr result (IsUnreadAt place (file.now.name, file.now.bytes.items)) }
{
    if !is_class_file(file.name.as_str()) {
        return Ok(None);
    }
    match read_class(alloc, file.bytes.as_slice()) {
        Ok(class) => Ok(Some(class)),
        Err(fault) => Err(unread_at(place, fault)),
    }
}

/// The classes that the files say, in their order. A file that is not one of a class, by its name, is
/// passed over.
///
/// # Errors
/// `Class` of the first class file that is none, and `Memory`.
pub fn read_classes(alloc: Global, files: &[NamedFile]) -> Result<Vec<ClassFile>, ReadFault>
    ensures classes { IfOk result (λ classes. classes.items ≡ classes_of (files_of files.now)) }
    ensures formed { IfOk result (λ classes. AllByRecursion (λ c. IsTrue (is_well_formed c)) classes.items) }
    ensures read { OnOk result (find is_faulty (files_of files.now) ≡ None) }
    ensures unread { IfErr result (AreUnread (files_of files.now)) }
{
    let mut classes = Vec::new(alloc);
    for (place, file) in files.iter().enumerate() {
        if let Some(class) = class_at(alloc, place, file)? {
            classes.push(class)?;
        }
    }
    Ok(classes)
}
