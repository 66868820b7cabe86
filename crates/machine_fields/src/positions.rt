//! The places of the fields of objects.

ghost use Rattle.std.specs.Prelude.{◌≡◌, ◌<◌, ◌≤◌, ◌+◌, ◌^◌, [], ◌∷◌, not, length, slice_get, Some, IfSome, MatchOption};
ghost use Rattle.std.specs.List.{filter, filter_map, flat_map, position_from};
ghost use Rattle.std.specs.Option.{option_map, option_to_list};
ghost use Rattle.std.specs.Str.{bytes_eq};
ghost use Rattle.class_heads.specs.Hierarchy.{place_of, superclass_name, superclasses};
ghost use Rattle.class_heads.specs.declared.types.FieldHead.{FieldHead};
ghost use Rattle.class_heads.specs.declared.types.ClassHead.{ClassHead};
ghost use Rattle.class_heads.specs.Searches.{same_name};
ghost use Rattle.class_machine.specs.Classes.{reference, same_type};
ghost use Rattle.class_machine.specs.Declarations.{declared_in, hidden_fields, is_static_field};
ghost use Rattle.class_machine.specs.Values.{throwable_class};
ghost use Rattle.class_machine.specs.World.{box_class, message_field, cause_field, value_field};
ghost use Rattle.class_world.specs.Found.{member_named};
ghost use Rattle.machine_requests.specs.Objects.{field_place};
ghost use Rattle.machine_requests.specs.Telling.{AreDistinct};
ghost use Rattle.machine_fields.specs.Positions.{in_head, in_place, IsPlace, boxed_in, fields_of_class};

use aj_names::ClassId;
use boot_library::Primitive;
use class_heads::{ClassHead, FieldHead};
use class_world::World;

pub(crate) fn is_static(field: &FieldHead) -> bool
    ensures { result ≡ is_static_field field.now }
{
    field.flags.0 & 0x0008 == 0x0008
}

fn is_named(field: &FieldHead, name: &[u8], descriptor: &[u8]) -> bool
    ensures { result ≡ same_name field.now.name (member_named name.now descriptor.now) }
{
    field.name.name.as_slice() == name && field.name.descriptor.as_slice() == descriptor
}

// How many of the fields aren't static.
fn own_count(fields: &[FieldHead]) -> usize
    ensures own { result ≡ length (filter (λ field. not (is_static_field field)) fields.now) }
    ensures few { result ≤ length fields.now }
{
    fields.iter().filter(|field| !is_static(field)).count()
}

// The place of the field among those that aren't static.
fn own_place(fields: &[FieldHead], name: &[u8], descriptor: &[u8]) -> Option<usize>
    ensures { result ≡ position_from (λ field. same_name field.name (member_named name.now descriptor.now)) 0 (filter (λ field. not (is_static_field field)) fields.now) }
{
    fields
        .iter()
        .filter(|field| !is_static(field))
        .position(|field| is_named(field, name, descriptor))
}

// The primitive type whose boxes are of the class.
pub(crate) fn boxed_in(class: &[u8]) -> Option<Primitive>
    ensures { result ≡ boxed_in class.now }
{
    if b"java/lang/Boolean".as_slice() == class {
        return Some(Primitive::Boolean);
    }
    if b"java/lang/Byte".as_slice() == class {
        return Some(Primitive::Byte);
    }
    if b"java/lang/Character".as_slice() == class {
        return Some(Primitive::Char);
    }
    if b"java/lang/Short".as_slice() == class {
        return Some(Primitive::Short);
    }
    if b"java/lang/Integer".as_slice() == class {
        return Some(Primitive::Int);
    }
    if b"java/lang/Long".as_slice() == class {
        return Some(Primitive::Long);
    }
    if b"java/lang/Float".as_slice() == class {
        return Some(Primitive::Float);
    }
    if b"java/lang/Double".as_slice() == class {
        return Some(Primitive::Double);
    }
    None
}

pub(crate) fn is_throwable(class: &[u8]) -> bool
    ensures { result ≡ bytes_eq class.now throwable_class }
{
    class == b"java/lang/Throwable".as_slice()
}

// How many fields the library keeps of its own in objects of the class.
fn hidden_count(class: &[u8]) -> usize
    ensures hidden { result ≡ length (hidden_fields class.now) }
    ensures few { result ≤ 2 }
{
    if is_throwable(class) {
        return 2;
    }
    match boxed_in(class) {
        Some(_) => 1,
        None => 0,
    }
}

// The descriptor of a primitive type.
pub(crate) fn spelling(boxed: Primitive) -> &'static [u8]
    ensures { result.now ≡ (value_field boxed).member.descriptor }
{
    match boxed {
        Primitive::Boolean => b"Z",
        Primitive::Byte => b"B",
        Primitive::Char => b"C",
        Primitive::Short => b"S",
        Primitive::Int => b"I",
        Primitive::Long => b"J",
        Primitive::Float => b"F",
        Primitive::Double => b"D",
    }
}

// Whether the names are those of the field that a box keeps its value in.
fn is_value(boxed: Primitive, name: &[u8], descriptor: &[u8]) -> bool
    ensures { result ≡ same_type (value_field boxed).member (reference [] name.now descriptor.now).member }
{
    b"value".as_slice() == name && spelling(boxed) == descriptor
}

// The place of a field among those that the library keeps in a Throwable.
fn place_in_throwable(name: &[u8], descriptor: &[u8]) -> Option<usize>
    ensures { result ≡ field_place (message_field ∷ cause_field ∷ []) (reference throwable_class name.now descriptor.now) }
{
    if b"message".as_slice() == name && b"Ljava/lang/String;".as_slice() == descriptor {
        return Some(0);
    }
    if b"cause".as_slice() == name && b"Ljava/lang/Throwable;".as_slice() == descriptor {
        return Some(1);
    }
    None
}

// The place of a field among those that the library keeps of its own in objects of the class.
fn hidden_place(class: &[u8], name: &[u8], descriptor: &[u8]) -> Option<usize>
    ensures hidden { result ≡ field_place (hidden_fields class.now) (reference class.now name.now descriptor.now) }
    ensures few { IfSome result (λ place. place ≤ 1) }
{
    if is_throwable(class) {
        return place_in_throwable(name, descriptor);
    }
    let boxed = boxed_in(class)?;
    if is_value(boxed, name, descriptor) {
        Some(0)
    } else {
        None
    }
}

// How many fields the class adds to its objects.
fn count_in(head: &ClassHead) -> usize
    ensures { result ≡ length (in_head head.now) }
{
    own_count(head.fields.as_slice()) + hidden_count(head.name.as_slice())
}

// The place of the field among those that the class adds to its objects.
fn place_in(head: &ClassHead, declaring: &[u8], name: &[u8], descriptor: &[u8]) -> Option<usize>
    ensures { result ≡ field_place (in_head head.now) (reference declaring.now name.now descriptor.now) }
{
    if head.name.as_slice() != declaring {
        return None;
    }
    match own_place(head.fields.as_slice(), name, descriptor) {
        Some(place) => Some(place),
        None => {
            let place = hidden_place(declaring, name, descriptor)?;
            Some(own_count(head.fields.as_slice()) + place)
        }
    }
}

pub(crate) fn superclass_of(world: &World, head: &ClassHead) -> Option<ClassId>
    ensures places { option_to_list (option_map (λ class. class.0) result) ≡ filter_map (place_of world.now.heads) (superclass_name (Some head.now)) }
    ensures within { IfSome result (λ class. class.0 < length world.now.heads) }
{
    match &head.super_class {
        None => None,
        Some(name) => world.class_named(name.as_slice()),
    }
}

// The sum, where it is below 2^32.
fn sum_of(before: usize, place: usize) -> Option<u32>
    ensures { MatchOption result (2 ^ 32 ≤ before + place) (λ sum. sum ≡ before + place) }
{
    let sum = before.checked_add(place)?;
    u32::try_from(sum).ok()
}

// The place of the field among those of the class and its superclasses.
fn place_upward(
    world: &World,
    class: ClassId,
    declaring: &[u8],
    name: &[u8],
    descriptor: &[u8],
) -> Option<u32>
    requires { class.0 < length world.now.heads }
    ensures { IsPlace (flat_map (in_place world.now.heads) (superclasses world.now.heads class.0)) (reference declaring.now name.now descriptor.now) result }
{
    let mut at = Some(class);
    let mut before = 0usize;
    for _turn in 0..world.classes() {
        let Some(here) = at else {
            return None;
        };
        let head = world.head(here);
        if let Some(place) = place_in(head, declaring, name, descriptor) {
            return sum_of(before, place);
        }
        let Some(sum) = before.checked_add(count_in(head)) else {
            return None;
        };
        before = sum;
        at = superclass_of(world, head);
    }
    None
}

/// The place of the field that the class declares at the position among those of an object of the class
/// (JVMS 2.9.1), for `getfield` and `putfield`. None, where the object has no such field, or has 2^32
/// before it.
pub fn field_position(
    world: &World,
    class: ClassId,
    declaring: ClassId,
    position: u32,
) -> Option<u32>
    requires class { class.0 < length world.now.heads }
    requires declaring { declaring.0 < length world.now.heads }
    ensures { AreDistinct world.now.heads → (head : ClassHead) (field : FieldHead) → slice_get world.now.heads declaring.0 ≡ Some head → slice_get head.fields position ≡ Some field → IsPlace (fields_of_class world.now class.0) (declared_in head.name field.name) result }
{
    let head = world.head(declaring);
    let found = head.fields.get(position as usize)?;
    place_upward(
        world,
        class,
        head.name.as_slice(),
        found.name.name.as_slice(),
        found.name.descriptor.as_slice(),
    )
}

/// The place of the message among the fields of an object of the class, where that is `Throwable` or
/// below it.
pub fn message_position(world: &World, class: ClassId) -> Option<u32>
    requires { class.0 < length world.now.heads }
    ensures { AreDistinct world.now.heads → IsPlace (fields_of_class world.now class.0) message_field result }
{
    place_upward(
        world,
        class,
        b"java/lang/Throwable",
        b"message",
        b"Ljava/lang/String;",
    )
}

/// The place of the cause among the fields of an object of the class, where that is `Throwable` or
/// below it.
pub fn cause_position(world: &World, class: ClassId) -> Option<u32>
    requires { class.0 < length world.now.heads }
    ensures { AreDistinct world.now.heads → IsPlace (fields_of_class world.now class.0) cause_field result }
{
    place_upward(
        world,
        class,
        b"java/lang/Throwable",
        b"cause",
        b"Ljava/lang/Throwable;",
    )
}

// The class of a primitive type's boxes.
fn class_of_boxes(boxed: Primitive) -> &'static [u8]
    ensures { result.now ≡ box_class boxed }
{
    match boxed {
        Primitive::Boolean => b"java/lang/Boolean",
        Primitive::Byte => b"java/lang/Byte",
        Primitive::Char => b"java/lang/Character",
        Primitive::Short => b"java/lang/Short",
        Primitive::Int => b"java/lang/Integer",
        Primitive::Long => b"java/lang/Long",
        Primitive::Float => b"java/lang/Float",
        Primitive::Double => b"java/lang/Double",
    }
}

/// The place of a box's value among the fields of an object of the class, where that is the class of
/// the primitive type's boxes or below it.
pub fn value_position(world: &World, class: ClassId, boxed: Primitive) -> Option<u32>
    requires { class.0 < length world.now.heads }
    ensures { AreDistinct world.now.heads → IsPlace (fields_of_class world.now class.0) (value_field boxed) result }
{
    place_upward(
        world,
        class,
        class_of_boxes(boxed),
        b"value",
        spelling(boxed),
    )
}
