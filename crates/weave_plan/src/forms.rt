//! Which classes are of the form that is built beside an aspect.

ghost use Rattle.std.specs.Prelude.{◌≡◌, IsTrue};
ghost use Rattle.class_file.specs.WellFormed.{is_well_formed};
ghost use Rattle.weave_plan.specs.Parsed as word;

use class_file::{ClassFile, is_first_form};

/// How many bytes the file of a class beside an aspect has at most.
const MOST_BYTES: usize = 65_536;

/// Whether a class, whose file has so many bytes, is of the form that is built beside an aspect, where
/// there is one.
pub(crate) fn has_form(beside_aspect: bool, class: &ClassFile, count: usize) -> bool
    requires { IsTrue (is_well_formed class.now) }
    ensures { result ≡ word.has_form beside_aspect class.now count }
{
    !beside_aspect || is_first_form(class) && count <= MOST_BYTES
}
