ghost use Rattle.std.specs.Prelude.{◌≡◌, ℕ, List, [], IfOk, IfErr, OnOk, None};
ghost use Rattle.weave_plan.specs.declared.planning.PlanFault.TheVariants.{Memory};
ghost use Rattle.weave_plan.specs.Faults.{AreTaken, AreRefused};
ghost use Rattle.weave_plan.specs.Fit.{Fit, IsWoven};
ghost use Rattle.weave_plan.specs.Parsed.{classes_in, aspects_in, last_of};
ghost use Rattle.weave_plan.specs.Plan.{IsPlan, files_of};

use crate::built::first_not_built;
use crate::outputs::{output_files, written};
use crate::parsing::{Parsed, parsed_files};
use crate::worlds::sound_classes;
use aj_outside::Name;
use class_file::ClassFile;
use class_format::ClassFault;
use class_world::WorldFault;
use jp_model::FirstAspect;
use std::alloc::{AllocError, AllocFailed, Global};
use thiserror::Error;

/// A file: its name and its bytes.
#[derive(Debug, Drop)]
pub struct NamedFile {
    pub name: Name,
    pub bytes: Vec<u8>,
}

/// Why nothing was planned.
#[derive(Debug, Drop, PartialEq, Eq, Error)]
pub enum PlanFault {
    /// The class file at this place of the list is the first that is none, with its first fault.
    #[error("the class file at place {0}: {1}")]
    Class(usize, ClassFault),
    /// The classes have this first fault as a world.
    #[error("{0}")]
    World(WorldFault),
    /// The file at this place of the list is the first that is not of a form that is built.
    #[error("the file at place {0} is not built")]
    NotBuilt(usize),
    /// Memory ran out.
    #[error("out of memory")]
    Memory,
}

impl From<AllocError> for PlanFault {
    ghost from_gives = { λ _ e. e ≡ Memory };

    fn from(_error: AllocError) -> PlanFault {
        PlanFault::Memory
    }
}

impl<T: Drop> From<AllocFailed<T>> for PlanFault {
    ghost from_gives = { λ _ e. e ≡ Memory };

    fn from(_error: AllocFailed<T>) -> PlanFault {
        PlanFault::Memory
    }
}

/// The files to write, in byte order of their names: `output/NAME.class` for each woven class.
///
/// # Errors
/// `Class` where some class file is none, else `World` where the classes have a fault as a world, else
/// `NotBuilt` where some file isn't of a form that is built, and `Memory`.
pub fn plan(alloc: Global, inputs: &[NamedFile], output: &str) -> Result<Vec<NamedFile>, PlanFault>
    ensures planned { IfOk result (λ outputs. IsPlan (files_of inputs.now) output.now (files_of outputs.items)) }
    ensures taken { OnOk result (AreTaken (files_of inputs.now)) }
    ensures refused { IfErr result (AreRefused (files_of inputs.now)) }
{
    let parsed = parsed_files(alloc, inputs)?;
    let not_built = first_not_built(parsed.as_slice());
    let (classes, aspect) = sorted_out(alloc, parsed)?;
    let classes = sound_classes(alloc, classes)?;
    match not_built {
        Some(place) => Err(PlanFault::NotBuilt(place)),
        None => Ok(planned(alloc, output, classes, aspect)?),
    }
}

/// The files of the woven classes.
fn planned(
    alloc: Global,
    output: &str,
    classes: Vec<ClassFile>,
    aspect: Option<FirstAspect>,
) -> Result<Vec<NamedFile>, AllocError>
    requires { Fit classes.items aspect }
    ensures { IfOk result (λ outputs. IsWoven classes.items aspect output.now (files_of outputs.items)) }
{
    let classes = written(alloc, classes, aspect)?;
    output_files(alloc, output, classes.as_slice())
}

/// The classes and the last aspect among the files.
fn sorted_out(
    alloc: Global,
    files: Vec<Parsed>,
) -> Result<(Vec<ClassFile>, Option<FirstAspect>), AllocError>
    ensures classes { IfOk result (λ parts. parts.0.items ≡ classes_in files.items) }
    ensures aspect { IfOk result (λ parts. parts.1 ≡ last_of None (aspects_in files.items)) }
{
    let mut classes = Vec::new(alloc);
    let mut aspect = None;
    for file in files {
        match file {
            Parsed::Class(found, _) => classes.push(found)?,
            Parsed::Aspect(found) => aspect = Some(found),
            Parsed::Other => {}
        }
    }
    Ok((classes, aspect))
}
