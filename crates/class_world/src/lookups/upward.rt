//! Searches from a class upward.

ghost use Rattle.std.specs.Prelude.{◌≡◌};
ghost use Rattle.std.specs.Option.{option_map};
ghost use Rattle.class_heads.specs.Searches as rule;
ghost use Rattle.class_heads.specs.Hierarchy as classes;
ghost use Rattle.class_world.specs.Names.{IsNameOrder};
ghost use Rattle.class_world.specs.Found.{member_place, member_named, wanted_in};

use crate::lookups::members::{Found, first_in_interfaces, method_in, selectable_in};
use crate::lookups::places::superclass_of;
use class_heads::{ClassHead, MethodHead};

/// Which methods a search from a class upward takes.
#[derive(Clone, Copy, Debug)]
pub(crate) enum Wanted {
    /// Each method.
    Declared,
    /// Those that are neither static nor private.
    Selectable,
}

fn wanted_in(
    heads: &[ClassHead],
    place: u32,
    wanted: Wanted,
    name: &[u8],
    descriptor: &[u8],
) -> Option<usize>
    ensures { result ≡ wanted_in heads.now wanted (member_named name.now descriptor.now) place }
{
    match wanted {
        Wanted::Declared => method_in(heads, place, name, descriptor),
        Wanted::Selectable => selectable_in(heads, place, name, descriptor),
    }
}

/// The method in the first class, from this one upward, that has it.
pub(crate) fn first_upward(
    heads: &[ClassHead],
    names: &[u32],
    class: u32,
    wanted: Wanted,
    name: &[u8],
    descriptor: &[u8],
) -> Option<Found>
    requires { IsNameOrder heads.now names.now }
    ensures { option_map member_place result ≡ rule.first_found (wanted_in heads.now wanted (member_named name.now descriptor.now)) (classes.superclasses heads.now class) }
{
    let mut at = Some(class);
    for _turn in 0..heads.len() {
        let Some(place) = at else {
            return None;
        };
        if let Some(position) = wanted_in(heads, place, wanted, name, descriptor) {
            return Some(Found {
                class: place,
                position,
            });
        }
        at = superclass_of(heads, names, place);
    }
    None
}

/// The method in the class and its superclasses, or else in its superinterfaces, which are among the
/// class's supertypes.
pub(crate) fn find_method(
    heads: &[ClassHead],
    names: &[u32],
    supertypes: &[u32],
    class: u32,
    name: &[u8],
    descriptor: &[u8],
) -> Option<Found>
    requires names { IsNameOrder heads.now names.now }
    requires supertypes { supertypes.now ≡ classes.supertypes heads.now class }
    ensures { option_map member_place result ≡ rule.find_method heads.now class (member_named name.now descriptor.now) }
{
    match first_upward(heads, names, class, Wanted::Declared, name, descriptor) {
        Some(found) => Some(found),
        None => first_in_interfaces(heads, supertypes, name, descriptor),
    }
}

fn method_of(heads: &[ClassHead], found: Found) -> Option<&MethodHead>
    ensures { option_map (λ m. m.now) result ≡ rule.method_at heads.now (member_place found) }
{
    match heads.get(found.class as usize) {
        Some(head) => head.methods.get(found.position),
        None => None,
    }
}

/// The method that runs on an object of the runtime class where this one was found.
pub(crate) fn select(
    heads: &[ClassHead],
    names: &[u32],
    runtime: u32,
    found: Found,
) -> Option<Found>
    requires { IsNameOrder heads.now names.now }
    ensures { option_map member_place result ≡ rule.select heads.now runtime (member_place found) }
{
    let method = method_of(heads, found)?;
    if method.flags.0 & 0x0002 == 0x0002 {
        Some(found)
    } else {
        let name = method.name.name.as_slice();
        let descriptor = method.name.descriptor.as_slice();
        first_upward(heads, names, runtime, Wanted::Selectable, name, descriptor)
    }
}
