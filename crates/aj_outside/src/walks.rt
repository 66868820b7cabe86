//! Walks through real folders.

use std::alloc::Global;
use std::collections::BTreeSet;
use std::fs::DirEntry;
use std::io::ErrorKind;
use std::rt::Files;
use std::{fs, io};

/// The most entries of folders that a walk looks at.
pub const MOST_ENTRIES: u32 = 1_000_000;

/// The most levels of folders below the one where a walk begins.
pub const MOST_LEVELS: u32 = 100;

// A folder that is still to be looked at: its path below the one where the walk began, which is empty
// for that one itself, and its level.
#[derive(Drop)]
struct Folder {
    rest: String,
    level: u32,
}

// A walk below a folder: the folders that are still to be looked at, the files that were found, by
// their paths below it, and how many entries were looked at.
#[derive(Drop)]
struct Walk {
    folders: Vec<Folder>,
    files: BTreeSet<String>,
    entries: u32,
}

/// The paths below a folder of all files in it, at any depth.
///
/// A link to a file counts as a file; a link to a folder is not followed.
///
/// # Errors
/// Where the folder is not there or can't be read, where an entry's name is not UTF-8, and past
/// [`MOST_ENTRIES`] or [`MOST_LEVELS`].
pub fn files_below<R: Files + AllocGlobal + Clone + Drop>(
    rt: &R,
    alloc: Global,
    top: &str,
) -> io::Result<BTreeSet<String>> {
    let mut walk = Walk {
        folders: Vec::new(alloc),
        files: BTreeSet::new(alloc),
        entries: 0,
    };
    let rest = String::new(alloc);
    walk.folders.push(Folder { rest, level: 0 })?;
    for _ in 0..=MOST_ENTRIES + 1 {
        let Some(folder) = walk.folders.pop() else {
            return Ok(walk.files);
        };
        visit(rt, alloc, top, &folder, &mut walk)?;
    }
    Err(io::Error::from(ErrorKind::QuotaExceeded))
}

// The path of an entry: the folder's, a slash, and the name, or the name alone below the top.
fn path_in(alloc: Global, folder: &str, name: &str) -> io::Result<String> {
    let mut path = String::from_str(alloc, folder)?;
    if !folder.is_empty() {
        path.push('/')?;
    }
    path.push_str(name)?;
    Ok(path)
}

// Looks at each entry of a folder.
fn visit<R: Files + AllocGlobal + Clone + Drop>(
    rt: &R,
    alloc: Global,
    top: &str,
    folder: &Folder,
    walk: &mut Walk,
) -> io::Result<()> {
    let path = if folder.rest.is_empty() {
        String::from_str(alloc, top)?
    } else {
        path_in(alloc, top, folder.rest.as_str())?
    };
    for entry in fs::read_dir(rt, path.as_str())? {
        note(rt, alloc, folder, &entry?, walk)?;
    }
    Ok(())
}

// Keeps an entry that is a folder or a file.
fn note<R: Files + AllocGlobal + Clone + Drop>(
    rt: &R,
    alloc: Global,
    folder: &Folder,
    entry: &DirEntry<R>,
    walk: &mut Walk,
) -> io::Result<()> {
    if walk.entries >= MOST_ENTRIES {
        return Err(io::Error::from(ErrorKind::QuotaExceeded));
    }
    walk.entries += 1;
    let rest = path_in(alloc, folder.rest.as_str(), entry.file_name())?;
    let kind = entry.file_type()?;
    if kind.is_dir() {
        if folder.level >= MOST_LEVELS {
            return Err(io::Error::from(ErrorKind::QuotaExceeded));
        }
        let level = folder.level + 1;
        walk.folders.push(Folder { rest, level })?;
    } else if kind.is_file() || (kind.is_symlink() && leads_to_file(rt, entry)?) {
        walk.files.insert(rest)?;
    }
    Ok(())
}

// Whether a link leads to a file; one that leads nowhere does not.
fn leads_to_file<R: Files + AllocGlobal + Clone + Drop>(
    rt: &R,
    link: &DirEntry<R>,
) -> io::Result<bool> {
    match fs::metadata(rt, link.path()) {
        Ok(metadata) => Ok(metadata.is_file()),
        Err(error) if error.kind() == ErrorKind::NotFound => Ok(false),
        Err(error) => Err(error),
    }
}
