//! Members of classes by name and descriptor.

ghost use Rattle.std.specs.Prelude.{◌≡◌, ◌<◌};
ghost use Rattle.std.specs.List.{position_from, filter};
ghost use Rattle.std.specs.Option.{option_map};
ghost use Rattle.class_heads.specs.Searches as rule;
ghost use Rattle.class_world.specs.Found.{member_place, member_named};

use aj_names::MemberName;
use class_heads::{ClassHead, FieldHead, MethodHead};

/// A member that a search found: the place of the class that declares it, and its position among the
/// class's fields or methods.
#[derive(Clone, Copy, Debug)]
pub(crate) struct Found {
    pub(crate) class: u32,
    pub(crate) position: usize,
}

fn is_named(member: &MemberName, name: &[u8], descriptor: &[u8]) -> bool
    ensures { result ≡ rule.same_name member.now (member_named name.now descriptor.now) }
{
    member.name.as_slice() == name && member.descriptor.as_slice() == descriptor
}

fn field_position(fields: &[FieldHead], name: &[u8], descriptor: &[u8]) -> Option<usize>
    ensures { result ≡ position_from (λ field. rule.same_name field.name (member_named name.now descriptor.now)) 0 fields.now }
{
    fields
        .iter()
        .position(|field| is_named(&field.name, name, descriptor))
}

fn method_position(methods: &[MethodHead], name: &[u8], descriptor: &[u8]) -> Option<usize>
    ensures { result ≡ position_from (λ method. rule.same_name method.name (member_named name.now descriptor.now)) 0 methods.now }
{
    methods
        .iter()
        .position(|method| is_named(&method.name, name, descriptor))
}

// The position of the field in the class at the place.
fn field_in(heads: &[ClassHead], place: u32, name: &[u8], descriptor: &[u8]) -> Option<usize>
    ensures { result ≡ rule.field_in heads.now (member_named name.now descriptor.now) place }
{
    match heads.get(place as usize) {
        Some(head) => field_position(head.fields.as_slice(), name, descriptor),
        None => None,
    }
}

/// The position of the method in the class at the place.
pub(crate) fn method_in(
    heads: &[ClassHead],
    place: u32,
    name: &[u8],
    descriptor: &[u8],
) -> Option<usize>
    ensures { result ≡ rule.method_in heads.now (member_named name.now descriptor.now) place }
{
    match heads.get(place as usize) {
        Some(head) => method_position(head.methods.as_slice(), name, descriptor),
        None => None,
    }
}

fn is_interface_at(heads: &[ClassHead], place: u32) -> bool
    ensures { result ≡ rule.is_interface_at heads.now place }
{
    match heads.get(place as usize) {
        Some(head) => head.flags.0 & 0x0200 == 0x0200,
        None => false,
    }
}

/// The field in the first of the classes that has it.
pub(crate) fn first_field(
    heads: &[ClassHead],
    places: &[u32],
    name: &[u8],
    descriptor: &[u8],
) -> Option<Found>
    ensures { option_map member_place result ≡ rule.first_found (rule.field_in heads.now (member_named name.now descriptor.now)) places.now }
{
    for place in places {
        if let Some(position) = field_in(heads, *place, name, descriptor) {
            return Some(Found {
                class: *place,
                position,
            });
        }
    }
    None
}

/// The method in the first of the interfaces among the classes that has it.
pub(crate) fn first_in_interfaces(
    heads: &[ClassHead],
    places: &[u32],
    name: &[u8],
    descriptor: &[u8],
) -> Option<Found>
    ensures { option_map member_place result ≡ rule.first_found (rule.method_in heads.now (member_named name.now descriptor.now)) (filter (rule.is_interface_at heads.now) places.now) }
{
    for place in places {
        if !is_interface_at(heads, *place) {
            continue;
        }
        if let Some(position) = method_in(heads, *place, name, descriptor) {
            return Some(Found {
                class: *place,
                position,
            });
        }
    }
    None
}

fn is_selectable(method: &MethodHead) -> bool
    ensures { result ≡ rule.is_selectable method.now }
{
    method.flags.0 & 0x0008 != 0x0008 && method.flags.0 & 0x0002 != 0x0002
}

/// The position of the class's first method of the name and descriptor, where that one is neither
/// static nor private.
pub(crate) fn selectable_in(
    heads: &[ClassHead],
    place: u32,
    name: &[u8],
    descriptor: &[u8],
) -> Option<usize>
    ensures { result ≡ rule.selectable_in heads.now (member_named name.now descriptor.now) place }
{
    let head = heads.get(place as usize)?;
    let position = method_position(head.methods.as_slice(), name, descriptor)?;
    let method = head.methods.get(position)?;
    if is_selectable(method) {
        Some(position)
    } else {
        None
    }
}
