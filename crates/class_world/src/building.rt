//! The steps in which a world is built.

ghost use Rattle.std.specs.Prelude.{◌≡◌, ◌≤◌, ◌<◌, ◌^◌, ◌++◌, length, map, true, IfOk, IfErr, OnOk};
ghost use Rattle.class_heads.specs.Heads.{head_of};
ghost use Rattle.class_heads.specs.Hierarchy.{name_at};
ghost use Rattle.class_world.specs.Order.{AreOrderly, IsDisorder, IsLackingAt, IsRing, AreTabled};
ghost use Rattle.class_world.specs.Tables.{HasPlaces};
ghost use Rattle.class_world.specs.First.{lacks_super_at};

use crate::faults::{first_lacking, first_later, first_on_circle, first_reserved, first_wrong};
use crate::names::Names;
use crate::supers::{missing_super, steps_of};
use crate::tables::{Tables, tables_of};
use aj_names::InternalName;
use class_file::ClassFile;
use class_heads::{ClassHead, WorldFault, head_of};
use sqlite_items::Items;
use std::alloc::{AllocError, Global};

/// The heads of the classes, then those of the library.
pub(crate) fn heads_of(
    alloc: Global,
    classes: &[ClassFile],
    library: &[ClassHead],
) -> Result<Vec<ClassHead>, AllocError>
    ensures { IfOk result (λ heads. heads.items ≡ map head_of classes.now ++ library.now) }
{
    let mut heads = Vec::new(alloc);
    for class in classes {
        let head = head_of(alloc, class)?;
        heads.push(head)?;
    }
    for head in library {
        let copy = head.copy(alloc)?;
        heads.push(copy)?;
    }
    Ok(heads)
}

fn name_of(heads: &[ClassHead], place: usize) -> Result<InternalName, AllocError>
    requires { place < length heads.now }
    ensures { IfOk result (λ name. name ≡ name_at heads.now place) }
{
    heads[place].name.copy()
}

// The fault of a class that lacks a supertype.
fn lacking(names: &Names, heads: &[ClassHead], place: usize) -> WorldFault
    requires index { HasPlaces heads.now names.now }
    requires place { place < length heads.now }
    requires lacks { lacks_super_at heads.now place ≡ true }
    ensures { IsLackingAt heads.now place result }
{
    match missing_super(names, &heads[place]) {
        Some(name) => match (name_of(heads, place), name.copy()) {
            (Ok(class), Ok(name)) => WorldFault::MissingSuper { class, name },
            _ => WorldFault::Memory,
        },
        None => unreachable!(),
    }
}

/// Judges the classes, but for circles. The files are those of the first classes.
pub(crate) fn check(
    alloc: Global,
    names: &Names,
    heads: &[ClassHead],
    files: &[ClassFile],
    woven: bool,
) -> Result<(), WorldFault>
    requires index { HasPlaces heads.now names.now }
    requires few { length heads.now < 2 ^ 32 }
    requires given { length files.now ≤ length heads.now }
    ensures ok { OnOk result (AreOrderly heads.now files.now woven) }
    ensures fault { IfErr result (IsDisorder heads.now files.now woven) }
{
    if let Some(place) = first_later(names, heads) {
        return Err(WorldFault::Duplicate(name_of(heads, place)?));
    }
    if let Some(place) = first_reserved(alloc, heads, files, woven)? {
        return Err(WorldFault::Reserved(name_of(heads, place)?));
    }
    if let Some(place) = first_lacking(names, heads, files.len()) {
        return Err(lacking(names, heads, place));
    }
    if let Some(place) = first_wrong(names, heads, files.len()) {
        return Err(WorldFault::FinalSuper(name_of(heads, place)?));
    }
    Ok(())
}

/// The table of the supertypes of each class, or the circle of the first class that lies on one.
pub(crate) fn supers_of(
    alloc: Global,
    names: &Names,
    heads: &[ClassHead],
) -> Result<Vec<Items<u32>>, WorldFault>
    requires index { HasPlaces heads.now names.now }
    requires few { length heads.now < 2 ^ 32 }
    ensures supers { IfOk result (λ supers. AreTabled heads.now supers.items) }
    ensures fault { IfErr result (IsRing heads.now) }
{
    let steps = steps_of(alloc, names, heads)?;
    match tables_of(alloc, &steps)? {
        Tables::Whole(supers) => Ok(supers),
        Tables::Stuck(stuck) => {
            let place = first_on_circle(alloc, heads, &steps, &stuck)?;
            Err(WorldFault::Circle(name_of(heads, place)?))
        }
    }
}
