//! The world of the input's classes.

ghost use Rattle.std.specs.Prelude.{◌≡◌, IfOk, IfErr, OnOk};
ghost use Rattle.weave_plan.specs.Worlds.{AreSound, IsFaultOf};

use crate::planning::PlanFault;
use boot_library::library_heads;
use class_file::ClassFile;
use class_world::{World, WorldFault};
use std::alloc::Global;

/// The classes again, which have no fault as a world beside the library.
///
/// # Errors
/// `World` with their first fault, and `Memory`.
pub(crate) fn sound_classes(
    alloc: Global,
    classes: Vec<ClassFile>,
) -> Result<Vec<ClassFile>, PlanFault>
    ensures same { IfOk result (λ files. files.items ≡ classes.items) }
    ensures sound { OnOk result (AreSound classes.items) }
    ensures fault { IfErr result (IsFaultOf classes.items) }
{
    let library = library_heads(alloc)?;
    match World::build(alloc, classes, library.as_slice(), false) {
        Ok(world) => Ok(world.into_files()),
        Err(WorldFault::Memory) => Err(PlanFault::Memory),
        Err(fault) => Err(PlanFault::World(fault)),
    }
}
