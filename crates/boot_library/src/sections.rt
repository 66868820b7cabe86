//! The rows of the library, by sections.

ghost use Rattle.std.specs.Prelude.{◌≡◌};
ghost use Rattle.std.specs.List.{flat_map};
ghost use Rattle.boot_library.specs.Library as library;
ghost use Rattle.boot_library.specs.Rows.{classes_of, exceptions_of, methods_of};

use crate::table::{
    BUFFERS, CONSTRUCTORS, ClassRow, EXCEPTIONS, ExceptionRow, FLOAT_BOXES, INTERFACES, MethodRow,
    OBJECTS, STRINGS, SYSTEMS, TEXT_BOXES,
};

fn objects() -> &'static [ClassRow]
    ensures { classes_of result.now ≡ library.objects }
{
    &OBJECTS
}

fn strings() -> &'static [ClassRow]
    ensures { classes_of result.now ≡ library.strings }
{
    &STRINGS
}

fn buffers() -> &'static [ClassRow]
    ensures { classes_of result.now ≡ library.buffers }
{
    &BUFFERS
}

fn systems() -> &'static [ClassRow]
    ensures { classes_of result.now ≡ library.systems }
{
    &SYSTEMS
}

fn text_boxes() -> &'static [ClassRow]
    ensures { classes_of result.now ≡ library.boxes }
{
    &TEXT_BOXES
}

fn float_boxes() -> &'static [ClassRow]
    ensures { classes_of result.now ≡ library.float_boxes }
{
    &FLOAT_BOXES
}

fn interfaces() -> &'static [ClassRow]
    ensures { classes_of result.now ≡ library.interfaces }
{
    &INTERFACES
}

/// The classes that are no exceptions, by sections.
pub(crate) fn sections() -> [&'static [ClassRow]; 7]
    ensures { flat_map (λ rows. classes_of rows.now) result ≡ library.classes }
{
    [
        objects(),
        strings(),
        buffers(),
        systems(),
        text_boxes(),
        float_boxes(),
        interfaces(),
    ]
}

/// The classes of exceptions.
pub(crate) fn exceptions() -> &'static [ExceptionRow]
    ensures { exceptions_of result.now ≡ library.exceptions }
{
    &EXCEPTIONS
}

/// The methods of each class of exceptions.
pub(crate) fn constructors() -> &'static [MethodRow]
    ensures { methods_of result.now ≡ library.throwable_constructors }
{
    &CONSTRUCTORS
}
