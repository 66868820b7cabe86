//! The first class, in the order of names, at which something is wrong.

ghost use Rattle.std.specs.Prelude.{◌≡◌, ◌<◌, ◌≤◌, ◌^◌, ◌&&◌, not, length, true, IfOk};
ghost use Rattle.std.specs.Option.{ForSome};
ghost use Rattle.class_world.specs.Tables.{HasPlaces};
ghost use Rattle.class_heads.specs.Reserved.{is_reserved};
ghost use Rattle.class_world.specs.First.{lesser, better, IsBefore, IsFirst, IsFirstPlace, is_later, takes_reserved_at, lacks_super_at, has_wrong_super_at};
ghost use Rattle.class_world.specs.Places.{IsStuck, HasTables, table_at};
ghost use Rattle.class_heads.specs.Graph.{LiesOnCircle};

use crate::circles::lies_on_circle;
use crate::names::{Names, place_named};
use crate::supers::{has_wrong_super, missing_super};
use class_file::ClassFile;
use class_heads::{ClassHead, is_reserved};
use sqlite_items::Items;
use std::alloc::{AllocError, Global};

// The place of the two whose class stands first by its name.
fn lesser(heads: &[ClassHead], best: Option<usize>, place: usize) -> usize
    requires best { ForSome best (λ best. best < length heads.now) }
    requires place { place < length heads.now }
    ensures place { result ≡ lesser heads.now best place }
    ensures within { result < length heads.now }
{
    match best {
        Some(best) if heads[place].name < heads[best].name => place,
        Some(best) => best,
        None => place,
    }
}

// Whether an earlier class has the name of the class at the place.
fn is_later(names: &Names, heads: &[ClassHead], place: usize) -> bool
    requires few { length heads.now < 2 ^ 32 }
    requires index { HasPlaces heads.now names.now }
    requires place { place < length heads.now }
    ensures { result ≡ is_later heads.now place }
{
    match place_named(names, &heads[place].name) {
        Some(first) => first as usize != place,
        None => true,
    }
}

// The best so far, or the place where it holds there and the place's class stands first.
fn better(heads: &[ClassHead], best: Option<usize>, place: usize, holds: bool) -> Option<usize>
    requires best { ForSome best (λ best. best < length heads.now) }
    requires place { place < length heads.now }
    ensures best { result ≡ better heads.now best place holds }
    ensures within { ForSome result (λ best. best < length heads.now) }
{
    if holds {
        Some(lesser(heads, best, place))
    } else {
        best
    }
}

/// The first class whose name an earlier one has.
pub(crate) fn first_later(names: &Names, heads: &[ClassHead]) -> Option<usize>
    requires few { length heads.now < 2 ^ 32 }
    requires index { HasPlaces heads.now names.now }
    ensures { IsFirst heads.now (IsBefore (length heads.now)) (λ place. is_later heads.now place ≡ true) result }
{
    let mut best = None;
    for place in 0..heads.len() {
        let later = is_later(names, heads, place);
        best = better(heads, best, place, later);
    }
    best
}

// Whether the class takes a reserved name, which a woven one may.
fn takes_reserved(alloc: Global, file: &ClassFile, woven: bool) -> Result<bool, AllocError>
    ensures { IfOk result (λ answer. answer ≡ (not woven && is_reserved file.now)) }
{
    if woven {
        return Ok(false);
    }
    is_reserved(alloc, file)
}

/// The first given class that takes a reserved name.
pub(crate) fn first_reserved(
    alloc: Global,
    heads: &[ClassHead],
    files: &[ClassFile],
    woven: bool,
) -> Result<Option<usize>, AllocError>
    requires { length files.now ≤ length heads.now }
    ensures { IfOk result (λ first. IsFirst heads.now (IsBefore (length files.now)) (λ place. takes_reserved_at woven files.now place ≡ true) first) }
{
    let mut best = None;
    for place in 0..files.len() {
        let reserved = takes_reserved(alloc, &files[place], woven)?;
        best = better(heads, best, place, reserved);
    }
    Ok(best)
}

/// The first of so many classes that lacks a supertype.
pub(crate) fn first_lacking(names: &Names, heads: &[ClassHead], given: usize) -> Option<usize>
    requires index { HasPlaces heads.now names.now }
    requires given { given ≤ length heads.now }
    ensures { IsFirst heads.now (IsBefore given) (λ place. lacks_super_at heads.now place ≡ true) result }
{
    let mut best = None;
    for place in 0..given {
        let lacking = missing_super(names, &heads[place]).is_some();
        best = better(heads, best, place, lacking);
    }
    best
}

/// The first of so many classes of which a supertype is of the wrong kind.
pub(crate) fn first_wrong(names: &Names, heads: &[ClassHead], given: usize) -> Option<usize>
    requires index { HasPlaces heads.now names.now }
    requires given { given ≤ length heads.now }
    ensures { IsFirst heads.now (IsBefore given) (λ place. has_wrong_super_at heads.now place ≡ true) result }
{
    let mut best = None;
    for place in 0..given {
        let wrong = has_wrong_super(names, heads, &heads[place]);
        best = better(heads, best, place, wrong);
    }
    best
}

/// The first class that lies on a circle, where some places are stuck.
pub(crate) fn first_on_circle(
    alloc: Global,
    heads: &[ClassHead],
    steps: &[Items<u32>],
    stuck: &[u32],
) -> Result<usize, AllocError>
    requires len { length heads.now ≡ length steps.now }
    requires within { HasTables (length steps.now) steps.now }
    requires stuck { IsStuck steps.now stuck.now }
    ensures { IfOk result (λ place. IsFirstPlace heads.now (IsBefore (length heads.now)) (LiesOnCircle (table_at steps.now)) place) }
{
    let mut best = None;
    for place in stuck {
        let circular = lies_on_circle(alloc, steps, *place)?;
        best = better(heads, best, *place as usize, circular);
    }
    match best {
        Some(place) => Ok(place),
        None => unreachable!(),
    }
}
