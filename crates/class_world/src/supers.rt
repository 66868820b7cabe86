//! The supertypes that classes name.

ghost use Rattle.std.specs.Prelude.{◌≡◌, ◌<◌, ◌++◌, ◌^◌, length, IfOk, OnOk};
ghost use Rattle.std.specs.List.{find, filter_map, list_any};
ghost use Rattle.std.specs.Option.{option_copied, option_to_list};
ghost use Rattle.class_heads.specs.Faults as rule;
ghost use Rattle.class_heads.specs.Faults.{direct_supers};
ghost use Rattle.class_heads.specs.Hierarchy as kind;
ghost use Rattle.class_world.specs.Tables.{indexed, is_unknown, HasPlaces, AreSteps};

use crate::names::{Names, class_named, is_unknown, place_named};
use aj_names::InternalName;
use class_heads::ClassHead;
use sqlite_items::Items;
use std::alloc::{AllocError, Global};

fn is_interface(head: &ClassHead) -> bool
    ensures { result ≡ kind.is_interface head.now }
{
    head.flags.0 & 0x0200 == 0x0200
}

fn is_final(head: &ClassHead) -> bool
    ensures { result ≡ kind.is_final head.now }
{
    head.flags.0 & 0x0010 == 0x0010
}

// The first of the names that no class has.
fn first_unknown<'a>(names: &Names, wanted: &'a [InternalName]) -> Option<&'a InternalName>
    ensures { option_copied result ≡ find (is_unknown names.now) wanted.now }
{
    for name in wanted {
        if is_unknown(names, name) {
            return Some(name);
        }
    }
    None
}

/// The first supertype of the class that isn't there: its superclass, or an interface, in order.
pub(crate) fn missing_super<'a>(names: &Names, head: &'a ClassHead) -> Option<&'a InternalName>
    ensures { option_copied result ≡ find (is_unknown names.now) (direct_supers head.now) }
{
    match &head.super_class {
        Some(name) if is_unknown(names, name) => Some(name),
        _ => first_unknown(names, head.interfaces.as_slice()),
    }
}

fn is_no_superclass(names: &Names, heads: &[ClassHead], name: &InternalName) -> bool
    requires { HasPlaces heads.now names.now }
    ensures { result ≡ rule.is_no_superclass heads.now name.now }
{
    match class_named(names, heads, name) {
        Some(class) => is_final(class) || is_interface(class),
        None => false,
    }
}

fn is_no_interface(names: &Names, heads: &[ClassHead], name: &InternalName) -> bool
    requires { HasPlaces heads.now names.now }
    ensures { result ≡ rule.is_no_interface heads.now name.now }
{
    match class_named(names, heads, name) {
        Some(class) => !is_interface(class),
        None => false,
    }
}

fn has_no_interface(names: &Names, heads: &[ClassHead], wanted: &[InternalName]) -> bool
    requires { HasPlaces heads.now names.now }
    ensures { result ≡ list_any (rule.is_no_interface heads.now) wanted.now }
{
    for name in wanted {
        if is_no_interface(names, heads, name) {
            return true;
        }
    }
    false
}

/// Whether a supertype of the class is of the wrong kind (JVMS 4.1).
pub(crate) fn has_wrong_super(names: &Names, heads: &[ClassHead], head: &ClassHead) -> bool
    requires { HasPlaces heads.now names.now }
    ensures { result ≡ rule.has_wrong_super heads.now head.now }
{
    match &head.super_class {
        Some(name) if is_no_superclass(names, heads, name) => true,
        _ => has_no_interface(names, heads, head.interfaces.as_slice()),
    }
}

fn push_place(places: &mut Vec<u32>, names: &Names, name: &InternalName) -> Result<(), AllocError>
    ensures { OnOk result (places.new.items ≡ places.old.items ++ option_to_list (indexed names.now name.now)) }
{
    if let Some(place) = place_named(names, name) {
        places.push(place)?;
    }
    Ok(())
}

fn push_places(
    places: &mut Vec<u32>,
    names: &Names,
    wanted: &[InternalName],
) -> Result<(), AllocError>
    ensures { OnOk result (places.new.items ≡ places.old.items ++ filter_map (indexed names.now) wanted.now) }
{
    for name in wanted {
        push_place(places, names, name)?;
    }
    Ok(())
}

// The places one step up: of the interfaces in order, then of the superclass.
fn places_above(alloc: Global, names: &Names, head: &ClassHead) -> Result<Vec<u32>, AllocError>
    ensures { IfOk result (λ places. places.items ≡ filter_map (indexed names.now) (head.now.interfaces ++ option_to_list head.now.super_class)) }
{
    let mut places = Vec::new(alloc);
    push_places(&mut places, names, head.interfaces.as_slice())?;
    if let Some(name) = &head.super_class {
        push_place(&mut places, names, name)?;
    }
    Ok(places)
}

/// The steps from each class to its direct supertypes.
pub(crate) fn steps_of(
    alloc: Global,
    names: &Names,
    heads: &[ClassHead],
) -> Result<Vec<Items<u32>>, AllocError>
    requires { HasPlaces heads.now names.now }
    ensures { IfOk result (λ steps. AreSteps heads.now steps.items) }
{
    let mut steps = Vec::new(alloc);
    for head in heads {
        let places = places_above(alloc, names, head)?;
        steps.push(Items::from_vec(places))?;
    }
    Ok(steps)
}
