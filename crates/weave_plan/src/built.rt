//! The first file that isn't built.

ghost use Rattle.std.specs.Prelude.{◌≡◌, []};
ghost use Rattle.std.specs.List.{AllByRecursion};
ghost use Rattle.std.specs.Str.{bytes_eq};
ghost use Rattle.class_file.specs.Pool.{this_name};
ghost use Rattle.class_file.specs.Sound.{is_some_that};
ghost use Rattle.weave_plan.specs.Parsed as word;

use crate::forms::has_form;
use crate::parsing::Parsed;
use class_file::{ClassFile, class_name};
use jp_model::FirstAspect;

/// The place of the first file that isn't built: a class that is not of the form beside an aspect, an
/// aspect that is not of the form, a second one, or one with the name of a class or beside a class that
/// hides java.lang's System.
pub(crate) fn first_not_built(files: &[Parsed]) -> Option<usize>
    requires { AllByRecursion word.IsFormed files.now }
    ensures { result ≡ word.first_refused files.now [] 0 files.now }
{
    let beside_aspect = has_aspect(files);
    let mut behind_aspect = false;
    for (place, file) in files.iter().enumerate() {
        match file {
            Parsed::Class(class, count) => {
                if !has_form(beside_aspect, class, *count) {
                    return Some(place);
                }
            }
            Parsed::Aspect(aspect) => {
                if behind_aspect || is_hidden(files, aspect) {
                    return Some(place);
                }
                behind_aspect = true;
            }
            Parsed::Other => return Some(place),
        }
    }
    None
}

/// Whether one of the files is of an aspect.
fn has_aspect(files: &[Parsed]) -> bool
    ensures { result ≡ word.has_aspect files.now }
{
    files.iter().any(is_aspect)
}

/// Whether a file is of an aspect.
fn is_aspect(file: &Parsed) -> bool
    ensures { result ≡ word.is_aspect file.now }
{
    match file {
        Parsed::Class(_, _) => false,
        Parsed::Aspect(_) | Parsed::Other => true,
    }
}

/// Whether a class has the aspect's name, or the name System.
fn is_hidden(files: &[Parsed], aspect: &FirstAspect) -> bool
    ensures { result ≡ word.is_hidden files.now aspect.now }
{
    has_class_named(files, aspect.name.as_slice()) || has_class_named(files, b"System")
}

/// Whether one of the files is a class with this name.
fn has_class_named(files: &[Parsed], name: &[u8]) -> bool
    ensures { result ≡ word.has_class_named files.now name.now }
{
    files.iter().any(|file| is_class_named(file, name))
}

/// Whether a file is a class with this name.
fn is_class_named(file: &Parsed, name: &[u8]) -> bool
    ensures { result ≡ word.is_class_named name.now file.now }
{
    match file {
        Parsed::Class(class, _) => is_named(class, name),
        _ => false,
    }
}

/// Whether a class has this name.
fn is_named(class: &ClassFile, name: &[u8]) -> bool
    ensures { result ≡ is_some_that (λ found. bytes_eq found name.now) (this_name class.now) }
{
    match class_name(class) {
        None => false,
        Some(found) => found == name,
    }
}
