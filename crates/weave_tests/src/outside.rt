//! Shelves of files and sinks of printed bytes.

use aj_outside::{
    FolderShelf, MemShelf, MemSink, Name, Shelf, ShelfFault, Sink, SinkFault, StdSink,
};
use std::alloc::Global;
use std::process::Abort;
use std::test::Fail;

// Any shelf lists and reads a file that was written.
fn keeps_a_file<S: Shelf>(rt: &impl Abort, alloc: Global, shelf: &mut S) -> Result<(), Fail> {
    let name = Name::join(alloc, "in/b", "C.class")?;
    shelf.write(&name, b"class")?;
    let listed = shelf.list(alloc, "in", 9)?;
    assert_eq!(rt; listed.as_slice(), [name.copy()?].as_slice());
    let bytes = shelf.read(alloc, &name, 3)?;
    assert_eq!(rt; bytes.as_slice(), b"cla".as_slice());
    Ok(())
}

// Any shelf answers so at a name.
fn refuses<S: Shelf>(
    rt: &impl Abort,
    alloc: Global,
    shelf: &mut S,
    path: &str,
    fault: ShelfFault,
) -> Result<(), Fail> {
    let name = Name::from_str(alloc, path)?;
    assert_eq!(rt; shelf.read(alloc, &name, 9), Err(fault));
    Ok(())
}

#[test]
fn shelves_keep_a_file(rt: HostRuntime) -> Result<(), Fail> {
    let mut memory = MemShelf::new(Vec::new(rt.alloc()), Vec::new(rt.alloc()))?;
    keeps_a_file(&rt, rt.alloc(), &mut memory)?;
    let mut folder = FolderShelf::new(rt.clone()?);
    keeps_a_file(&rt, rt.alloc(), &mut folder)
}

#[test]
fn shelves_refuse_a_read(rt: HostRuntime) -> Result<(), Fail> {
    let mut memory = MemShelf::new(Vec::new(rt.alloc()), vec![in rt.alloc(); 2]?)?;
    refuses(&rt, rt.alloc(), &mut memory, "a", ShelfFault::NoSuchFile)?;
    refuses(&rt, rt.alloc(), &mut memory, "a", ShelfFault::Failed)?;
    let mut folder = FolderShelf::new(rt.clone()?);
    refuses(
        &rt,
        rt.alloc(),
        &mut folder,
        "none/a",
        ShelfFault::NoSuchFile,
    )?;
    refuses(
        &rt,
        rt.alloc(),
        &mut folder,
        "none/../a",
        ShelfFault::Failed,
    )
}

#[test]
fn sinks_take_bytes(rt: HostRuntime) -> Result<(), Fail> {
    let mut memory = MemSink::new(vec![in rt.alloc(); 2]?);
    assert_eq!(rt; memory.put(b"one"), Ok(()));
    assert_eq!(rt; memory.put(b"two"), Err(SinkFault::Failed));
    assert_eq!(rt; memory.bytes(), b"one".as_slice());
    let mut output = StdSink::new(rt.clone()?);
    assert_eq!(rt; output.put(b"printed\n"), Ok(()));
    Ok(())
}
