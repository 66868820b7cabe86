//! Classes of a world and of objects, by their names.

ghost use Rattle.std.specs.Prelude.{◌≡◌, ◌<◌, true, length, is_some, List, IfOk, IfSome};
ghost use Rattle.std.specs.Str.{bytes_eq};
ghost use Rattle.std.specs.Option.{option_map};
ghost use Rattle.class_heads.specs.declared.types.ClassHead.{ClassHead};
ghost use Rattle.class_heads.specs.Hierarchy.{place_of, name_at};
ghost use Rattle.class_heads.specs.Hierarchy as rule;
ghost use Rattle.class_machine.specs.ClassFiles.{field_constant};
ghost use Rattle.class_machine.specs.Declarations as run;
ghost use Rattle.class_machine.specs.Values.{class_of, number_of, string_class};
ghost use Rattle.machine_values.specs.Standing.{name_of};
ghost use Rattle.machine_values.specs.Types.{type_name};
ghost use Rattle.machine_rules.specs.Library.{HasLibrary};

use aj_names::{Base, ClassId, FieldType};
use class_file::is_field_descriptor;
use class_world::World;
use machine_values::{Heap, Maker, Name, Ref};
use std::alloc::{AllocError, Global};

/// The name of a class of the world.
pub(crate) fn class_name(world: &World, class: ClassId) -> &[u8]
    ensures { result.now ≡ name_at world.now.heads class.0 }
{
    if class.0 < world.classes() {
        world.head(class).name.as_slice()
    } else {
        &[]
    }
}

/// A class or array type, as Class entries name it (JVMS 4.4.1).
pub(crate) fn type_name(alloc: Global, class: &FieldType) -> Result<Vec<u8>, AllocError>
    ensures { IfOk result (λ bytes. bytes.items ≡ type_name class.now) }
{
    if class.dims > 0 {
        return class.print(alloc);
    }
    match &class.base {
        Base::Class(name) => Vec::from_slice(alloc, name.as_slice()),
        _ => class.print(alloc),
    }
}

/// The class or array type of an object.
pub(crate) fn class_of(
    alloc: Global,
    heap: &Heap,
    world: &World,
    at: Ref,
) -> Result<Vec<u8>, AllocError>
    requires { at.0 < length heap.now.names }
    ensures { IfOk result (λ bytes. bytes.items ≡ class_of (name_of world.now.heads heap.now.names at)) }
{
    match heap.name(at) {
        Name::Made(Maker::Class(class), _) => Vec::from_slice(alloc, class_name(world, *class)),
        Name::Made(Maker::Array(class), _) => type_name(alloc, class),
        Name::Literal(_) => Vec::from_slice(alloc, b"java/lang/String"),
        Name::ClassObject(_) => Vec::from_slice(alloc, b"java/lang/Class"),
    }
}

/// The number that tells an object from the others of its class.
pub(crate) fn number_of(heap: &Heap, at: Ref) -> u64
    requires { at.0 < length heap.now.names }
    ensures { (heads : List ClassHead) → result ≡ number_of (name_of heads heap.now.names at) }
{
    match heap.name(at) {
        Name::Made(_, number) => *number,
        _ => 0,
    }
}

// Whether the type is the class of Strings.
fn is_string_type(class: &FieldType) -> bool
    ensures { result ≡ bytes_eq (type_name class.now) string_class }
{
    if class.dims > 0 {
        return false;
    }
    match &class.base {
        Base::Class(name) => name.as_slice() == b"java/lang/String".as_slice(),
        _ => false,
    }
}

/// Whether the object is a String.
pub(crate) fn is_string(heap: &Heap, world: &World, at: Ref) -> bool
    requires { at.0 < length heap.now.names }
    ensures { result ≡ bytes_eq (class_of (name_of world.now.heads heap.now.names at)) string_class }
{
    match heap.name(at) {
        Name::Made(Maker::Class(class), _) => class_name(world, *class)
            == b"java/lang/String".as_slice(),
        Name::Made(Maker::Array(class), _) => is_string_type(class),
        Name::Literal(_) => true,
        Name::ClassObject(_) => false,
    }
}

/// The class of that name, which is there.
pub(crate) fn class_there(world: &World, name: &[u8]) -> ClassId
    requires { is_some (place_of world.now.heads name.now) ≡ true }
    ensures name { name_at world.now.heads result.0 ≡ name.now }
    ensures place { place_of world.now.heads name.now ≡ Some result.0 }
    ensures within { result.0 < length world.now.heads }
{
    match world.class_named(name) {
        Some(class) => class,
        None => unreachable!(),
    }
}

/// The class of Strings.
pub(crate) fn string_class(world: &World) -> ClassId
    requires { HasLibrary world.now }
    ensures name { name_at world.now.heads result.0 ≡ string_class }
    ensures within { result.0 < length world.now.heads }
{
    class_there(world, b"java/lang/String")
}

// The name of a class in its descriptor, which ends at a semicolon.
fn before_semicolon(text: &[u8]) -> &[u8]
    ensures { result.now ≡ rule.before_semicolon text.now }
{
    for (i, byte) in text.iter().enumerate() {
        if *byte == b';' {
            return &text[..i];
        }
    }
    text
}

// Whether the elements of the arrays are of a primitive type or of a class that is there, by the
// descriptor of the type.
fn knows_elements(world: &World, descriptor: &[u8]) -> bool
    ensures { result ≡ rule.is_known world.now.heads (rule.type_of_descriptor descriptor.now) }
{
    let mut rest = descriptor;
    while let [b'[', behind @ ..] = rest {
        rest = behind;
    }
    match rest {
        [b'L', class @ ..] => world.class_named(before_semicolon(class)).is_some(),
        _ => true,
    }
}

/// Whether the class, or the class of the array type's elements, is there.
pub(crate) fn knows(world: &World, class: &[u8]) -> bool
    ensures { result ≡ run.knows world.now.heads (length world.now.files) (field_constant world.now.files) class.now }
{
    match class {
        [b'[', ..] => is_field_descriptor(class) && knows_elements(world, class),
        _ => world.class_named(class).is_some(),
    }
}

/// The class whose members the class or array type has: those of an array type are Object's.
pub(crate) fn class_of_members(world: &World, class: &[u8]) -> Option<ClassId>
    ensures place { option_map (λ c. c.0) result ≡ run.members_at world.now.heads (length world.now.files) (field_constant world.now.files) class.now }
    ensures within { IfSome result (λ c. c.0 < length world.now.heads) }
{
    match class {
        [b'[', ..] => {
            if knows(world, class) {
                world.class_named(b"java/lang/Object")
            } else {
                None
            }
        }
        _ => world.class_named(class),
    }
}
