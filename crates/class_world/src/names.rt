//! The index of the names of classes.

ghost use Rattle.std.specs.Prelude.{◌≡◌, ◌<◌, ◌≤◌, ◌^◌, length, IfOk, OnSome};
ghost use Rattle.std.specs.Option.{option_copied};
ghost use Rattle.class_heads.specs.Hierarchy.{place_of, class_named};
ghost use Rattle.class_world.specs.Tables.{indexed, is_unknown, HasPlaces};

use aj_names::InternalName;
use class_heads::ClassHead;
use sqlite_items::at;
use std::alloc::{AllocError, Global};
use std::collections::BTreeMap;

/// The places of classes by their names.
pub(crate) type Names = BTreeMap<InternalName, u32>;

/// The index of the first place of each name.
pub(crate) fn index_names(alloc: Global, heads: &[ClassHead]) -> Result<Names, AllocError>
    requires { length heads.now < 2 ^ 32 }
    ensures { IfOk result (λ names. HasPlaces heads.now names) }
{
    let mut names = BTreeMap::new(alloc);
    for place in 0..heads.len() {
        let name = &heads[place].name;
        if is_unknown(&names, name) {
            names.insert(name.copy()?, place as u32)?;
        }
    }
    Ok(names)
}

/// The place of the class of that name.
pub(crate) fn place_named(names: &Names, name: &InternalName) -> Option<u32>
    ensures { result ≡ indexed names.now name.now }
{
    names.get(name).copied()
}

/// Whether no class has the name.
pub(crate) fn is_unknown(names: &Names, name: &InternalName) -> bool
    ensures { result ≡ is_unknown names.now name.now }
{
    place_named(names, name).is_none()
}

/// The class of that name.
pub(crate) fn class_named<'a>(
    names: &Names,
    heads: &'a [ClassHead],
    name: &InternalName,
) -> Option<&'a ClassHead>
    requires { HasPlaces heads.now names.now }
    ensures { option_copied result ≡ class_named heads.now name.now }
{
    match place_named(names, name) {
        Some(place) => at(heads, place as usize),
        None => None,
    }
}
