//! What searches of members find (JVMS 5.4.3).

ghost use Rattle.std.specs.Prelude.{◌≡◌, ◌<◌, List, true, false, length, IfSome};
ghost use Rattle.std.specs.Option.{option_map};
ghost use Rattle.class_file.specs.Lookup.{reference_seen};
ghost use Rattle.class_heads.specs.declared.types.ClassHead.{ClassHead};
ghost use Rattle.class_heads.specs.Hierarchy as rule;
ghost use Rattle.class_machine.specs.Values.{class_of};
ghost use Rattle.machine_values.specs.Standing.{maker_name, machine_name, name_of};
ghost use Rattle.machine_values.specs.Types.{type_name};
ghost use Rattle.machine_requests.specs.Telling.{AreDistinct, AreFit, is_array_type, is_fit, is_fit_maker};
ghost use Rattle.machine_invocations.specs.Methods.{members_in, classes_in, Finds};
ghost use Rattle.machine_invocations.specs.Selections.{is_base_known};

use aj_names::{Base, ClassId, FieldType, MethodId};
use class_file::{Reference, is_class_name, is_field_descriptor};
use class_world::World;
use machine_values::{Heap, Maker, Name, Ref};

// The name of a class in its descriptor, which ends at a semicolon.
fn before_semicolon(text: &[u8]) -> &[u8]
    ensures { result.now ≡ rule.before_semicolon text.now }
{
    for (i, byte) in text.iter().enumerate() {
        if *byte == b';' {
            return &text[..i];
        }
    }
    text
}

// What is left of an array type's descriptor without its brackets.
fn behind_brackets(descriptor: &[u8]) -> &[u8]
    ensures element { (heads : List ClassHead) → rule.is_known heads (rule.type_of_descriptor result.now) ≡ rule.is_known heads (rule.type_of_descriptor descriptor.now) }
    ensures last { rule.is_array result.now ≡ false }
{
    let mut element = descriptor;
    'brackets: while let [b'[', rest @ ..] = element {
        element = rest;
    }
    element
}

// Whether the classes have the type of a descriptor, where it names one.
fn is_known(world: &World, descriptor: &[u8]) -> bool
    ensures { result ≡ rule.is_known world.now.heads (rule.type_of_descriptor descriptor.now) }
{
    match behind_brackets(descriptor) {
        [b'L', class @ ..] => world.class_named(before_semicolon(class)).is_some(),
        _ => true,
    }
}

fn object_class(world: &World) -> Option<ClassId>
    ensures place { option_map (λ class. class.0) result ≡ rule.place_of world.now.heads rule.object_name }
    ensures within { IfSome result (λ class. class.0 < length world.now.heads) }
{
    world.class_named(b"java/lang/Object".as_slice())
}

/// The class whose members a class or array type has, which is named as Class entries name it: an
/// array type has those of `Object`, where its elements' class is there.
pub fn class_of_members(world: &World, class: &[u8]) -> Option<ClassId>
    ensures place { option_map (λ class. class.0) result ≡ members_in world.now class.now }
    ensures within { IfSome result (λ class. class.0 < length world.now.heads) }
{
    match class {
        [b'[', element @ ..] => {
            if is_field_descriptor(class) && is_known(world, element) {
                object_class(world)
            } else {
                None
            }
        }
        _ => world.class_named(class),
    }
}

/// The method that a search finds, by what an instruction names (JVMS 5.4.3.3, 5.4.3.4).
pub fn find_method(world: &World, reference: Reference<'_>) -> Option<MethodId>
    ensures { Finds world.now result ((classes_in world.now).method (reference_seen reference.entry)) }
{
    let class = class_of_members(world, reference.class)?;
    world.find_method_named(class, reference.member.name, reference.member.descriptor)
}

// Whether it is primitive or a class that is there.
fn is_known_base(world: &World, base: &Base) -> bool
    ensures { result ≡ is_base_known world.now.heads base.now }
{
    match base {
        Base::Class(name) => is_class_name(name.as_slice()) && world.class(name).is_some(),
        _ => true,
    }
}

// The class whose members objects of the array type have.
fn class_of_array(world: &World, class: &FieldType) -> Option<ClassId>
    ensures place { is_array_type class.now ≡ true → option_map (λ class. class.0) result ≡ members_in world.now (type_name class.now) }
    ensures within { IfSome result (λ class. class.0 < length world.now.heads) }
{
    if class.dims == 0 {
        return None;
    }
    if !is_known_base(world, &class.base) {
        return None;
    }
    object_class(world)
}

// The same of objects that are made of a class or an array type.
fn class_of_maker(world: &World, maker: &Maker) -> Option<ClassId>
    ensures place { AreDistinct world.now.heads → is_fit_maker (length world.now.heads) maker.now ≡ true → option_map (λ class. class.0) result ≡ members_in world.now (maker_name world.now.heads maker.now) }
    ensures within { IfSome result (λ class. class.0 < length world.now.heads) }
{
    match maker {
        Maker::Class(class) => {
            if class.0 < world.classes() {
                Some(*class)
            } else {
                None
            }
        }
        Maker::Array(class) => class_of_array(world, class),
    }
}

// The same of an object of the name.
fn class_of_name(world: &World, name: &Name) -> Option<ClassId>
    ensures place { AreDistinct world.now.heads → is_fit (length world.now.heads) name.now ≡ true → option_map (λ class. class.0) result ≡ members_in world.now (class_of (machine_name world.now.heads name.now)) }
    ensures within { IfSome result (λ class. class.0 < length world.now.heads) }
{
    match name {
        Name::Made(maker, _) => class_of_maker(world, maker),
        Name::Literal(_) => world.class_named(b"java/lang/String".as_slice()),
        Name::ClassObject(_) => world.class_named(b"java/lang/Class".as_slice()),
    }
}

/// The class whose members an object has.
pub fn class_of_object(world: &World, heap: &Heap, at: Ref) -> Option<ClassId>
    requires { at.0 < length heap.now.names }
    ensures place { AreDistinct world.now.heads → AreFit (length world.now.heads) heap.now.names → option_map (λ class. class.0) result ≡ members_in world.now (class_of (name_of world.now.heads heap.now.names at)) }
    ensures within { IfSome result (λ class. class.0 < length world.now.heads) }
{
    class_of_name(world, heap.name(at))
}
