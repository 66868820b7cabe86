//! Places of classes by their names.

ghost use Rattle.std.specs.Prelude.{◌≡◌, ◌<◌, length};
ghost use Rattle.std.specs.Ordering.{nat_cmp};
ghost use Rattle.std.specs.Option.{option_to_list};
ghost use Rattle.std.specs.Cmp.Lexicographic.{slice_cmp};
ghost use Rattle.class_heads.specs.Hierarchy as rule;
ghost use Rattle.class_world.specs.Names.{IsNameOrder};

use class_heads::ClassHead;
use std::cmp::Ordering;

// The name of the class at the place, against a name.
fn compare_at(heads: &[ClassHead], place: u32, name: &[u8]) -> Ordering
    requires { place < length heads.now }
    ensures { result ≡ slice_cmp nat_cmp (rule.name_at heads.now place) name.now }
{
    heads[place as usize].name.as_slice().cmp(&name)
}

/// The place of the class of that name, by the places in the order of their names.
pub(crate) fn place_of(heads: &[ClassHead], names: &[u32], name: &[u8]) -> Option<u32>
    requires { IsNameOrder heads.now names.now }
    ensures { result ≡ rule.place_of heads.now name.now }
{
    let mut low = 0usize;
    let mut high = names.len();
    while low < high {
        let middle = low + (high - low) / 2;
        let place = names[middle];
        match compare_at(heads, place, name) {
            Ordering::Less => low = middle + 1,
            Ordering::Equal => return Some(place),
            Ordering::Greater => high = middle,
        }
    }
    None
}

/// The place of the superclass of the class at the place.
pub(crate) fn superclass_of(heads: &[ClassHead], names: &[u32], place: u32) -> Option<u32>
    requires { IsNameOrder heads.now names.now }
    ensures { option_to_list result ≡ rule.superclass_at heads.now place }
{
    match heads.get(place as usize) {
        None => None,
        Some(head) => match &head.super_class {
            None => None,
            Some(name) => place_of(heads, names, name.as_slice()),
        },
    }
}
