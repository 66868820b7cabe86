//! Real files as a shelf.
ghost use Rattle.std.specs.Prelude.{◌≡◌, ◌≢◌, ◌≤◌, ◌++◌, ◌∷◌, [], map, IfOk, take, vec_len, All, None, true};
ghost use Rattle.std.specs.String.{string_bytes};
ghost use Rattle.std.specs.BTreeSet.{keys};
ghost use Rattle.aj_outside.specs.Files.{AreRising, is_under};

use crate::names::{Name, strip_folder_of};
use crate::shelves::{Shelf, ShelfFault};
use crate::walks::files_below;
use std::alloc::{AllocError, AllocFailed, Global};
use std::collections::BTreeSet;
use std::fs::{File, OpenFile};
use std::io::{ErrorKind, Read};
use std::marker::Model;
use std::rt::Files;
use std::{fs, io};

/// The files of a runtime, which contracts see as three counts. What they hold is not told.
///
/// A name is a path. The shelf reaches the paths below the current folder, whose parts are all plain
/// names (none is empty, `.` or `..`), and what the user named: with a granted word, that very path, and
/// the paths that go on from it by plain names. Any other name is answered by `Failed` before anything is
/// touched. So no name that comes from within a file leads out of these folders; a link that stands in
/// one is followed where it leads to a file.
#[derive(Drop)]
pub struct FolderShelf<R> {
    rt: R,
    granted: Vec<String>,
    faults: u64,
    write_faults: u64,
    missing: u64,
}

impl<R> Model for FolderShelf<R> {
    ghost use Rattle.aj_outside.specs.Edge.{FolderCounts};

    ghost Value = { FolderCounts };

    ghost view = { λ shelf. record {
      faults = shelf.faults;
      write_faults = shelf.write_faults;
      missing = shelf.missing;
    } };
}

impl<R: Files + AllocGlobal + Clone + Drop> FolderShelf<R> {
    /// The files of this runtime below the current folder, without failures.
    pub fn new(rt: R) -> FolderShelf<R>
        ensures counts { result ≡ record { faults = 0; write_faults = 0; missing = 0 } }
    {
        let granted = Vec::new(rt.alloc());
        FolderShelf {
            rt,
            granted,
            faults: 0,
            write_faults: 0,
            missing: 0,
        }
    }

    /// Lets the shelf reach a file or folder that the user named, which may be any path.
    ///
    /// # Errors
    /// Only for want of memory; the shelf is then as before.
    pub fn grant(&mut self, word: String) -> Result<(), AllocFailed<String>>
        ensures counts { self.new ≡ self.old }
    {
        self.granted.push(word)
    }

    fn reaches(&self, path: &str) -> bool {
        is_plain(path)
            || self
                .granted
                .iter()
                .any(|word| goes_on_from(path, word.as_str()))
    }
}

// Whether each part of a path is a plain name.
fn is_plain(path: &str) -> bool {
    path.split('/')
        .all(|part| !part.is_empty() && part != "." && part != "..")
}

// Whether a path is this word, or goes on from it by plain names.
fn goes_on_from(path: &str, word: &str) -> bool {
    match strip_folder_of(path, word) {
        Some(rest) => is_plain(rest),
        None => path == word,
    }
}

impl<R: Files + AllocGlobal + Clone + Drop> Shelf for FolderShelf<R> {
    ghost held = { λ _. None };

    ghost faults = { λ counts. counts.faults };

    ghost write_faults = { λ counts. counts.write_faults };

    ghost missing = { λ counts. counts.missing };

    fn list(&mut self, alloc: Global, under: &str, most: u32) -> Result<Vec<Name>, ShelfFault> {
        let answer = if self.reaches(under) {
            list_files(&self.rt, alloc, under, most)
        } else {
            Err(ShelfFault::Failed)
        };
        if let Err(ShelfFault::Failed) = answer {
            self.faults = self.faults.saturating_add(1);
        }
        answer
    }

    fn read(&mut self, alloc: Global, name: &Name, most: u32) -> Result<Vec<u8>, ShelfFault> {
        let answer = if self.reaches(name.as_str()) {
            read_file(&self.rt, alloc, name.as_str(), most)
        } else {
            Err(ShelfFault::Failed)
        };
        match answer {
            Err(ShelfFault::Failed) => self.faults = self.faults.saturating_add(1),
            Err(ShelfFault::NoSuchFile) => self.missing = self.missing.saturating_add(1),
            _ => {}
        }
        answer
    }

    fn write(&mut self, name: &Name, bytes: &[u8]) -> Result<(), ShelfFault> {
        let answer = if self.reaches(name.as_str()) {
            write_file(&self.rt, name.as_str(), bytes)
        } else {
            Err(ShelfFault::Failed)
        };
        if let Err(ShelfFault::Failed) = answer {
            self.write_faults = self.write_faults.saturating_add(1);
        }
        answer
    }
}

// What an error of the outside is answered by, where no file is missed.
fn fault_of(error: &io::Error) -> ShelfFault
    ensures found { result ≢ ShelfFault.NoSuchFile }
{
    if error.kind() == ErrorKind::OutOfMemory {
        ShelfFault::Memory
    } else {
        ShelfFault::Failed
    }
}

// The first `most` names of the files below a folder.
fn list_files<R: Files + AllocGlobal + Clone + Drop>(
    rt: &R,
    alloc: Global,
    folder: &str,
    most: u32,
) -> Result<Vec<Name>, ShelfFault>
    ensures few { IfOk result (λ listed. vec_len listed ≤ most) }
    ensures rising { IfOk result (λ listed. AreRising listed.items) }
    ensures under { IfOk result (λ listed. All (λ name. is_under folder.now name ≡ true) listed.items) }
    ensures found { result ≢ Err ShelfFault.NoSuchFile }
{
    match files_below(rt, alloc, folder) {
        Ok(rests) => match first_names(alloc, folder, &rests, most) {
            Ok(listed) => Ok(listed),
            Err(_) => Err(ShelfFault::Memory),
        },
        Err(error) => Err(fault_of(&error)),
    }
}

// The first `most` of the names that go on from a folder by these paths.
fn first_names(
    alloc: Global,
    folder: &str,
    rests: &BTreeSet<String>,
    most: u32,
) -> Result<Vec<Name>, AllocError>
    ensures few { IfOk result (λ listed. vec_len listed ≤ most) }
    ensures rising { IfOk result (λ listed. AreRising listed.items) }
    ensures under { IfOk result (λ listed. All (λ name. is_under folder.now name ≡ true) listed.items) }
{
    let mut listed = Vec::new(alloc);
    for rest in rests.iter() {
        if listed.len() >= most as usize {
            break;
        }
        listed.push(Name::join(alloc, folder, rest.as_str())?)?;
    }
    Ok(listed)
}

// The first `most` bytes of a file.
fn read_file<R: Files>(rt: &R, alloc: Global, path: &str, most: u32) -> Result<Vec<u8>, ShelfFault>
    ensures few { IfOk result (λ bytes. vec_len bytes ≤ most) }
{
    match File::open(rt, path) {
        Ok(mut file) => match read_first(alloc, &mut file, most) {
            Ok(bytes) => Ok(bytes),
            Err(error) => Err(fault_of(&error)),
        },
        Err(error) if error.kind() == ErrorKind::NotFound => Err(ShelfFault::NoSuchFile),
        Err(error) => Err(fault_of(&error)),
    }
}

// How many bytes are read at a time.
const CHUNK: usize = 16384;

// The first `most` bytes of an open file, in room for what it says that it has.
fn read_first<F: Read + OpenFile>(alloc: Global, file: &mut F, most: u32) -> io::Result<Vec<u8>>
    ensures few { IfOk result (λ bytes. vec_len bytes ≤ most) }
{
    let limit = most as usize;
    let size = usize::try_from(file.metadata()?.len()).unwrap_or(limit);
    let mut bytes = Vec::with_capacity(alloc, size.min(limit))?;
    let mut chunk = [0u8; CHUNK];
    for _ in 0..limit {
        let room = (limit - bytes.len()).min(CHUNK);
        let count = file.read(&mut chunk[..room])?;
        if count == 0 {
            break;
        }
        bytes.extend_from_slice(&chunk[..count])?;
    }
    Ok(bytes)
}

// Writes a file, and makes the folders on the way to it.
fn write_file<R: Files>(rt: &R, path: &str, bytes: &[u8]) -> Result<(), ShelfFault>
    ensures found { result ≢ Err ShelfFault.NoSuchFile }
{
    match make_and_write(rt, path, bytes) {
        Ok(()) => Ok(()),
        Err(error) => Err(fault_of(&error)),
    }
}

fn make_and_write<R: Files>(rt: &R, path: &str, bytes: &[u8]) -> io::Result<()> {
    if let Some((folder, _)) = path.rsplit_once('/') {
        fs::create_dir_all(rt, folder)?;
    }
    fs::write(rt, path, bytes)
}
