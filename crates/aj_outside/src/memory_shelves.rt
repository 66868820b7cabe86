//! A shelf in memory.
ghost use Rattle.std.specs.Prelude.{◌≡◌, ◌≢◌, ◌≤◌, ◌<◌, ◌↔◌, ◌++◌, [], List, map, length, Option, ℕ, IfOk, IfSome, OnOk, OnErr, vec_len, take, All, is_some, option_map, option_copied, true, false, None, Some};
ghost use Rattle.aj_outside.specs.Counts.{Rose, ComesWithRise, last_count};
ghost use Rattle.aj_outside.specs.Files.{Files, AreFiles, AreRising, file_at, put_file, put_each, names_under, is_under, OthersStay};
ghost use Rattle.aj_outside.specs.Memory.{NextFails, one_more};
ghost use Rattle.aj_outside.specs.Stored.{stored_files};

use crate::names::{Name, strip_folder_of};
use crate::schedules::Schedule;
use crate::shelves::{Shelf, ShelfFault};
use std::alloc::{AllocError, Global};
use std::collections::BTreeMap;
use std::marker::Model;

/// A shelf that keeps its files in memory and tells them.
///
/// Chosen calls fail; a failing `write` changes no file.
#[derive(Drop)]
pub struct MemShelf {
    alloc: Global,
    files: BTreeMap<String, Vec<u8>>,
    schedule: Schedule,
    faults: u64,
    write_faults: u64,
    missing: u64,
}

impl Model for MemShelf {
    ghost use Rattle.std.specs.Prelude.{◌≤◌};
    ghost use Rattle.aj_outside.specs.Files.{AreFiles};
    ghost use Rattle.aj_outside.specs.Memory.{ShelfState};
    ghost use Rattle.aj_outside.specs.Stored.{stored_files};

    ghost Value = { ShelfState };

    ghost view = { λ shelf. record {
      files = stored_files shelf.files.entries;
      failing = shelf.schedule.failing.items;
      calls = shelf.schedule.calls;
      faults = shelf.faults;
      write_faults = shelf.write_faults;
      missing = shelf.missing;
    } };

    ghost invariant = { λ shelf. (shelf.faults ≤ shelf.schedule.calls) × (shelf.write_faults ≤ shelf.schedule.calls) × AreFiles (stored_files shelf.files.entries) };
}

impl MemShelf {
    /// A shelf of these files, whose calls of these numbers are to fail, counted from 1. Where a name
    /// stands twice, the last file counts.
    ///
    /// # Errors
    /// Only for want of memory.
    pub fn new(files: Vec<(Name, Vec<u8>)>, failing: Vec<u64>) -> Result<MemShelf, AllocError>
        ensures made { IfOk result (λ shelf. shelf ≡ record {
          files = put_each [] (map (λ file. (file.0, file.1.items)) files.items);
          failing = failing.items;
          calls = 0;
          faults = 0;
          write_faults = 0;
          missing = 0;
        }) }
    {
        let alloc = *failing.allocator();
        Ok(MemShelf {
            alloc,
            files: store(alloc, files)?,
            schedule: Schedule::new(failing),
            faults: 0,
            write_faults: 0,
            missing: 0,
        })
    }

    /// The bytes of the file of this name, or `None` where there is none.
    pub fn file(&self, name: &str) -> Option<&[u8]>
        ensures file { option_copied result ≡ file_at self.now.files name.now }
    {
        match self.files.get(name) {
            None => None,
            Some(bytes) => Some(bytes.as_slice()),
        }
    }

    /// How many files there are.
    pub fn len(&self) -> usize
        ensures count { result ≡ length self.now.files }
    {
        self.files.len()
    }
}

impl Shelf for MemShelf {
    ghost held = { λ shelf. Some shelf.files };

    ghost faults = { λ shelf. shelf.faults };

    ghost write_faults = { λ shelf. shelf.write_faults };

    ghost missing = { λ shelf. shelf.missing };

    fn list(&mut self, alloc: Global, under: &str, most: u32) -> Result<Vec<Name>, ShelfFault>
        ensures given { IfOk result (λ listed. listed.items ≡ take most (names_under under.now self.old.files)) }
        ensures few { IfOk result (λ listed. vec_len listed ≤ most) }
        ensures rising { IfOk result (λ listed. AreRising listed.items) }
        ensures under { IfOk result (λ listed. All (λ name. is_under under.now name ≡ true) listed.items) }
        ensures failed { ComesWithRise (result ≡ Err ShelfFault.Failed) self.old.faults self.new.faults }
        ensures found { result ≢ Err ShelfFault.NoSuchFile }
        ensures writes { self.new.write_faults ≡ self.old.write_faults }
        ensures reads { self.new.missing ≡ self.old.missing }
        ensures kept { Some self.new.files ≡ Some self.old.files }
        ensures ordered { AreFiles self.new.files }
        ensures fails { (result ≡ Err ShelfFault.Failed) ↔ NextFails self.old.failing self.old.calls }
        ensures never { self.old.failing ≡ [] → result ≢ Err ShelfFault.Failed }
        ensures schedule { (self.new.failing ≡ self.old.failing) × (self.new.calls ≡ one_more self.old.calls) }
    {
        if self.schedule.next_fails() {
            self.faults += 1;
            return Err(ShelfFault::Failed);
        }
        let Ok(listed) = first_under(alloc, &self.files, under, most) else {
            return Err(ShelfFault::Memory);
        };
        Ok(listed)
    }

    fn read(&mut self, alloc: Global, name: &Name, most: u32) -> Result<Vec<u8>, ShelfFault>
        ensures given { IfOk result (λ bytes. option_map (take most) (file_at self.old.files name.now) ≡ Some bytes.items) }
        ensures few { IfOk result (λ bytes. vec_len bytes ≤ most) }
        ensures failed { ComesWithRise (result ≡ Err ShelfFault.Failed) self.old.faults self.new.faults }
        ensures absent { ComesWithRise (result ≡ Err ShelfFault.NoSuchFile) self.old.missing self.new.missing }
        ensures nowhere { (result ≡ Err ShelfFault.NoSuchFile) ↔ ((file_at self.old.files name.now ≡ None) × ¬ Rose self.old.faults self.new.faults) }
        ensures writes { self.new.write_faults ≡ self.old.write_faults }
        ensures kept { Some self.new.files ≡ Some self.old.files }
        ensures ordered { AreFiles self.new.files }
        ensures fails { (result ≡ Err ShelfFault.Failed) ↔ NextFails self.old.failing self.old.calls }
        ensures never { self.old.failing ≡ [] → result ≢ Err ShelfFault.Failed }
        ensures schedule { (self.new.failing ≡ self.old.failing) × (self.new.calls ≡ one_more self.old.calls) }
    {
        if self.schedule.next_fails() {
            self.faults += 1;
            return Err(ShelfFault::Failed);
        }
        let Some(bytes) = self.file(name.as_str()) else {
            self.missing = self.missing.saturating_add(1);
            return Err(ShelfFault::NoSuchFile);
        };
        let Ok(first) = first_bytes(alloc, bytes, most) else {
            return Err(ShelfFault::Memory);
        };
        Ok(first)
    }

    fn write(&mut self, name: &Name, bytes: &[u8]) -> Result<(), ShelfFault>
        ensures written { OnOk result (self.new.files ≡ put_file self.old.files name.now bytes.now) }
        ensures refused { OnErr result (OthersStay name.now (Some self.old.files) (Some self.new.files)) }
        ensures failed { ComesWithRise (result ≡ Err ShelfFault.Failed) self.old.write_faults self.new.write_faults }
        ensures found { result ≢ Err ShelfFault.NoSuchFile }
        ensures reads { (self.new.faults ≡ self.old.faults) × (self.new.missing ≡ self.old.missing) }
        ensures told { is_some (Some self.new.files) ≡ is_some (Some self.old.files) }
        ensures ordered { AreFiles self.new.files }
        ensures unchanged { OnErr result (self.new.files ≡ self.old.files) }
        ensures fails { (result ≡ Err ShelfFault.Failed) ↔ NextFails self.old.failing self.old.calls }
        ensures never { self.old.failing ≡ [] → result ≢ Err ShelfFault.Failed }
        ensures schedule { (self.new.failing ≡ self.old.failing) × (self.new.calls ≡ one_more self.old.calls) }
    {
        if self.schedule.next_fails() {
            self.write_faults += 1;
            return Err(ShelfFault::Failed);
        }
        let (Ok(name), Ok(bytes)) = (name.copy(), Vec::from_slice(self.alloc, bytes)) else {
            return Err(ShelfFault::Memory);
        };
        let Ok(_) = self.files.insert(name.into_string(), bytes) else {
            return Err(ShelfFault::Memory);
        };
        Ok(())
    }
}

// The files by their names; the last one counts where a name stands twice.
fn store(
    alloc: Global,
    files: Vec<(Name, Vec<u8>)>,
) -> Result<BTreeMap<String, Vec<u8>>, AllocError>
    ensures stored { IfOk result (λ stored. stored_files stored.entries ≡ put_each [] (map (λ file. (file.0, file.1.items)) files.items)) }
    ensures ordered { IfOk result (λ stored. AreFiles (stored_files stored.entries)) }
{
    let mut stored = BTreeMap::new(alloc);
    for (name, bytes) in files {
        stored.insert(name.into_string(), bytes)?;
    }
    Ok(stored)
}

// The first `most` names under a folder.
fn first_under(
    alloc: Global,
    files: &BTreeMap<String, Vec<u8>>,
    folder: &str,
    most: u32,
) -> Result<Vec<Name>, AllocError>
    ensures given { IfOk result (λ listed. listed.items ≡ take most (names_under folder.now (stored_files files.now.entries))) }
    ensures few { IfOk result (λ listed. vec_len listed ≤ most) }
{
    let mut listed = Vec::new(alloc);
    for text in files.keys() {
        if listed.len() >= most as usize {
            break;
        }
        if strip_folder_of(text.as_str(), folder).is_some() {
            listed.push(Name::from_str(alloc, text.as_str())?)?;
        }
    }
    Ok(listed)
}

// The first `most` of these bytes.
fn first_bytes(alloc: Global, bytes: &[u8], most: u32) -> Result<Vec<u8>, AllocError>
    ensures given { IfOk result (λ first. first.items ≡ take most bytes.now) }
    ensures few { IfOk result (λ first. vec_len first ≤ most) }
{
    let count = bytes.len().min(most as usize);
    Vec::from_slice(alloc, &bytes[..count])
}
