//! Look-ups in a world of class files beside the library.

use aj_names::{Hierarchy, InternalName};
use boot_library::library_heads;
use class_text::to_class;
use class_world::{World, WorldFault};
use std::alloc::{AllocError, Global};

/// The classes of the world, but for the library's. Their places are 0 to 6.
const CLASSES: [&[u8]; 7] = [
    b"class I super java/lang/Object version 48 flags 1537
field x I
method run ()V flags 1025 none",
    b"class J super java/lang/Object version 48 flags 1537 interface I",
    b"class K super java/lang/Object version 48 flags 1537 interface I
method run ()V flags 1025 none",
    b"class p/A super java/lang/Object version 48
field x I
field y I
method first ()V flags 1026 none
method go ()V flags 1025 none",
    b"class p/A$B super p/A version 48 interface J K
method go ()V flags 1026 none",
    b"class p/C super p/A$B version 48
method go ()V flags 1033 none",
    b"class p/D super p/C version 48 interface K
method go ()V flags 1025 none",
];

fn world(alloc: Global) -> Result<World, WorldFault> {
    let mut files = Vec::new(alloc);
    for text in CLASSES {
        match to_class(alloc, text) {
            Ok(class) => files.push(class)?,
            Err(_) => return Err(WorldFault::Memory),
        }
    }
    let library = library_heads(alloc)?;
    World::build(alloc, files, &library, false)
}

/// The class of the field that a search from the class finds, and its position there.
fn field_of(world: &World, class: &[u8], name: &[u8]) -> Option<(u32, u32)> {
    let class = world.class_named(class)?;
    let field = world.find_field_named(class, name, b"I")?;
    let (class, position) = world.field_at(field);
    Some((class.0, position))
}

/// Fields of interfaces hide those of the superclass.
const FIELDS: [(&[u8], &[u8], Option<(u32, u32)>); 5] = [
    (b"p/A", b"x", Some((3, 0))),
    (b"p/A$B", b"x", Some((0, 0))),
    (b"p/D", b"x", Some((0, 0))),
    (b"p/D", b"y", Some((3, 1))),
    (b"J", b"y", None),
];

/// The same of a method.
fn method_of(world: &World, class: &[u8], name: &[u8]) -> Option<(u32, u32)> {
    let class = world.class_named(class)?;
    let method = world.find_method_named(class, name, b"()V")?;
    let (class, position) = world.method_at(method);
    Some((class.0, position))
}

/// Superinterfaces are searched depth first, behind the superclasses.
const METHODS: [(&[u8], &[u8], Option<(u32, u32)>); 4] = [
    (b"p/A$B", b"run", Some((0, 0))),
    (b"p/D", b"run", Some((2, 0))),
    (b"p/C", b"go", Some((5, 0))),
    (b"p/A", b"run", None),
];

/// The same of the method `go` that is selected for a runtime class where that of the other was found.
fn selected(world: &World, runtime: &[u8], class: &[u8]) -> Option<(u32, u32)> {
    let runtime = world.class_named(runtime)?;
    let class = world.class_named(class)?;
    let found = world.find_method_named(class, b"go", b"()V")?;
    let method = world.select(runtime, found)?;
    let (class, position) = world.method_at(method);
    Some((class.0, position))
}

/// Private and static methods are passed over.
const SELECTED: [(&[u8], &[u8], Option<(u32, u32)>); 4] = [
    (b"p/A$B", b"p/A", Some((3, 1))),
    (b"p/C", b"p/A", Some((3, 1))),
    (b"p/D", b"p/A", Some((6, 0))),
    (b"p/D", b"p/A$B", Some((4, 0))),
];

#[test]
fn members_are_found(rt: HostRuntime) -> Result<(), WorldFault> {
    let world = world(rt.alloc())?;
    for (class, name, wanted) in FIELDS {
        assert!(rt;
            field_of(&world, class, name) == wanted,
            "{class:?} {name:?}"
        );
    }
    for (class, name, wanted) in METHODS {
        assert!(rt;
            method_of(&world, class, name) == wanted,
            "{class:?} {name:?}"
        );
    }
    for (runtime, class, wanted) in SELECTED {
        assert!(rt;
            selected(&world, runtime, class) == wanted,
            "{runtime:?} {class:?}"
        );
    }
    Ok(())
}

/// Whether the method was declared by the superclass of all.
fn is_of_object(world: &World, class: &[u8], name: &[u8], descriptor: &[u8]) -> bool {
    let Some(class) = world.class_named(class) else {
        return false;
    };
    let Some(method) = world.find_method_named(class, name, descriptor) else {
        return false;
    };
    let (class, _) = world.method_at(method);
    world.head(class).name.as_slice() == b"java/lang/Object".as_slice()
}

#[test]
fn members_of_the_library_are_found(rt: HostRuntime) -> Result<(), WorldFault> {
    let world = world(rt.alloc())?;
    assert!(rt; is_of_object(&world, b"p/D", b"hashCode", b"()I"));
    assert!(rt; is_of_object(&world, b"K", b"hashCode", b"()I"));
    Ok(())
}

/// Types, and whether the first is a subtype of the second. Arrays are compared by their elements.
const SUBTYPES: [(&[u8], &[u8], bool); 9] = [
    (b"p/D", b"I", true),
    (b"p/A", b"I", false),
    (b"[Lp/D;", b"[LI;", true),
    (b"[LI;", b"[Lp/D;", false),
    (b"[[I", b"[Ljava/lang/Cloneable;", true),
    (b"[I", b"java/lang/Object", true),
    (b"[I", b"[J", false),
    (b"[I", b"[Ljava/lang/Object;", false),
    (b"java/lang/Object", b"[I", false),
];

fn is_below(alloc: Global, world: &World, low: &[u8], high: &[u8]) -> Result<bool, AllocError> {
    let low = InternalName::from_slice(alloc, low)?;
    let high = InternalName::from_slice(alloc, high)?;
    Ok(world.is_subtype(&low, &high))
}

#[test]
fn types_are_compared(rt: HostRuntime) -> Result<(), WorldFault> {
    let world = world(rt.alloc())?;
    for (low, high, wanted) in SUBTYPES {
        let found = is_below(rt.alloc(), &world, low, high)?;
        assert!(rt; found == wanted, "{low:?} {high:?}");
    }
    Ok(())
}

/// Whether the inner class is found by this name with so many dots as dollars.
fn finds_inner(world: &World, package: &[u8], name: &[u8], dollars: u32) -> bool {
    match world.find(package, name, dollars) {
        Some(found) => found.as_slice() == b"p/A$B".as_slice(),
        None => false,
    }
}

/// Packages, names and numbers of dollars, and whether they are those of the inner class.
const INNER: [(&[u8], &[u8], u32, bool); 5] = [
    (b"p", b"A.B", 1, true),
    (b"", b"p.A.B", 1, true),
    (b"p", b"A.B", 0, false),
    (b"p", b"A", 1, false),
    (b"q", b"A.B", 1, false),
];

#[test]
fn inner_classes_are_found_by_dollars(rt: HostRuntime) -> Result<(), WorldFault> {
    let world = world(rt.alloc())?;
    for (package, name, dollars, wanted) in INNER {
        let found = finds_inner(&world, package, name, dollars);
        assert!(rt; found == wanted, "{package:?} {name:?} {dollars}");
    }
    Ok(())
}

/// Types, and their supertypes in the order of searches, each once. An array has none.
const SUPERTYPES: [(&[u8], &[&[u8]]); 4] = [
    (b"K", &[b"K", b"I", b"java/lang/Object"]),
    (
        b"p/A$B",
        &[b"p/A$B", b"J", b"I", b"java/lang/Object", b"K", b"p/A"],
    ),
    (
        b"p/D",
        &[
            b"p/D",
            b"K",
            b"I",
            b"java/lang/Object",
            b"p/C",
            b"p/A$B",
            b"J",
            b"p/A",
        ],
    ),
    (b"[Lp/A;", &[]),
];

/// Whether the supertypes of the type are these.
fn has_supertypes(
    alloc: Global,
    world: &World,
    low: &[u8],
    wanted: &[&[u8]],
) -> Result<bool, AllocError> {
    let low = InternalName::from_slice(alloc, low)?;
    for (i, name) in (0..).zip(wanted) {
        match world.supertype(&low, i) {
            Some(found) if found.as_slice() == *name => {}
            _ => return Ok(false),
        }
    }
    let end = u32::try_from(wanted.len()).unwrap_or(u32::MAX);
    Ok(world.supertype(&low, end).is_none())
}

#[test]
fn supertypes_stand_in_the_order_of_searches(rt: HostRuntime) -> Result<(), WorldFault> {
    let world = world(rt.alloc())?;
    for (low, wanted) in SUPERTYPES {
        assert!(rt; has_supertypes(rt.alloc(), &world, low, wanted)?, "{low:?}");
    }
    Ok(())
}
