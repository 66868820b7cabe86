//! The files to write.

ghost use Rattle.std.specs.Prelude.{◌≡◌, IfOk, map};
ghost use Rattle.std.specs.List.{AllByRecursion};
ghost use Rattle.jp_model.specs.Headline.{IsWritten, outputs_of};
ghost use Rattle.weave_plan.specs.Fit.{Fit, IsWovenOf};
ghost use Rattle.weave_plan.specs.Plan.{files_of};

use crate::file_names::file_name;
use crate::planning::NamedFile;
use aj_outside::Name;
use before_weave::weave_classes;
use class_file::ClassFile;
use class_format::write_class;
use jp_model::FirstAspect;
use std::alloc::{AllocError, Global};
use std::collections::BTreeMap;
use woven_calls::no_aspect_behaves;

/// The classes to write: those of the input with the advice woven in, and then that of the aspect. Without
/// an aspect they stay as they are.
pub(crate) fn written(
    alloc: Global,
    classes: Vec<ClassFile>,
    aspect: Option<FirstAspect>,
) -> Result<Vec<ClassFile>, AllocError>
    requires { Fit classes.items aspect }
    ensures { IfOk result (λ w. IsWovenOf classes.items aspect w.items) }
{
    match aspect {
        None => {
            no_aspect_behaves();
            Ok(classes)
        }
        Some(aspect) => weave_classes(alloc, classes, &aspect),
    }
}

/// The files of the classes, in byte order of their names.
pub(crate) fn output_files(
    alloc: Global,
    folder: &str,
    classes: &[ClassFile],
) -> Result<Vec<NamedFile>, AllocError>
    requires { AllByRecursion IsWritten classes.now }
    ensures { IfOk result (λ files. files_of files.items ≡ outputs_of folder.now classes.now) }
{
    let files = sorted(alloc, folder, classes)?;
    named_files(alloc, files)
}

/// The bytes of each class by the name of its file.
fn sorted(
    alloc: Global,
    folder: &str,
    classes: &[ClassFile],
) -> Result<BTreeMap<Name, Vec<u8>>, AllocError>
    requires { AllByRecursion IsWritten classes.now }
    ensures { IfOk result (λ files. map (λ e. (e.0, e.1.items)) files.entries ≡ outputs_of folder.now classes.now) }
{
    let mut files = BTreeMap::new(alloc);
    for class in classes {
        let name = file_name(alloc, folder, class)?;
        files.insert(name, write_class(alloc, class)?)?;
    }
    Ok(files)
}

/// The files, in their order.
fn named_files(alloc: Global, files: BTreeMap<Name, Vec<u8>>) -> Result<Vec<NamedFile>, AllocError>
    ensures { IfOk result (λ named. files_of named.items ≡ map (λ e. (e.0, e.1.items)) files.entries) }
{
    let mut named = Vec::new(alloc);
    for (name, bytes) in files {
        named.push(NamedFile { name, bytes })?;
    }
    Ok(named)
}
