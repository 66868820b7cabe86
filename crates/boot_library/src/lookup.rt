//! What a method of the library means.

ghost use Rattle.std.specs.Prelude.{◌≡◌, IsSome, IsTrue, ◌↔◌};
ghost use Rattle.std.specs.List.{flat_map};
ghost use Rattle.std.specs.Option.{option_map};
ghost use Rattle.boot_library.specs.Heads.{library_heads};
ghost use Rattle.boot_library.specs.Library.{library};
ghost use Rattle.boot_library.specs.Rules.{methods_in, rule_among, rule_of, has_rule};
ghost use Rattle.boot_library.specs.Rows.{methods_of, classes_of, exceptions_of};

use crate::rule::LibraryRule;
use crate::sections::{constructors, exceptions, sections};
use crate::table::{ClassRow, ExceptionRow, MethodRow};
use aj_names::{InternalName, MemberName};

// The methods of the class of that name, if a row has it.
fn find_methods(rows: &[ClassRow], class: &[u8]) -> Option<&'static [MethodRow]>
    ensures { option_map (λ methods. methods_of methods.now) result ≡ methods_in (classes_of rows.now) class.now }
{
    for row in rows {
        if row.name.as_bytes() == class {
            return Some(row.methods);
        }
    }
    None
}

// The methods of the class of exceptions of that name, if a row has it.
fn find_constructors(rows: &[ExceptionRow], class: &[u8]) -> Option<&'static [MethodRow]>
    ensures { option_map (λ methods. methods_of methods.now) result ≡ methods_in (exceptions_of rows.now) class.now }
{
    for row in rows {
        if row.0.as_bytes() == class {
            return Some(constructors());
        }
    }
    None
}

// The methods of the class of that name, if a row of some section has it.
fn find_in_sections(sections: &[&'static [ClassRow]], class: &[u8]) -> Option<&'static [MethodRow]>
    ensures { option_map (λ methods. methods_of methods.now) result ≡ methods_in (flat_map (λ rows. classes_of rows.now) sections.now) class.now }
{
    for rows in sections {
        if let Some(methods) = find_methods(rows, class) {
            return Some(methods);
        }
    }
    None
}

// The methods of a class of the library.
fn methods_of_class(class: &[u8]) -> Option<&'static [MethodRow]>
    ensures { option_map (λ methods. methods_of methods.now) result ≡ methods_in library class.now }
{
    match find_in_sections(&sections(), class) {
        Some(methods) => Some(methods),
        None => find_constructors(exceptions(), class),
    }
}

fn find_rule(rows: &[MethodRow], method: &MemberName) -> Option<LibraryRule>
    ensures { result ≡ rule_among (methods_of rows.now) method.now }
{
    for row in rows {
        if row.name().as_bytes() == method.name.as_slice()
            && row.descriptor().as_bytes() == method.descriptor.as_slice()
        {
            return row.rule();
        }
    }
    None
}

/// What a method of the library means, by the class that declares it, its name and its descriptor.
/// `None` where the library has no such class, where the class inherits the method or doesn't have
/// it, and where the method is native. No memory is taken.
pub fn library_rule(class: &InternalName, method: &MemberName) -> Option<LibraryRule>
    ensures exact { result ≡ rule_of class.now method.now }
    ensures agrees { IsSome result ↔ IsTrue (has_rule library_heads class.now method.now) }
{
    find_rule(methods_of_class(class.as_slice())?, method)
}
