//! Edits of a pool.

ghost use Rattle.std.specs.Prelude.{◌≡◌, ◌≤◌, ◌<◌, ◌+◌, ◌-◌, ◌++◌, ◌∷◌, [], length, take, Some, IfOk, IfErr, OnOk, OnErr};
ghost use Rattle.constant_pool.specs.Edit.{with_entry, with_text, least_index, Extends};
ghost use Rattle.constant_pool.specs.Answers.{Gives, IsFull};
ghost use Rattle.class_file.specs.Pool.{entry_at};
ghost use Rattle.class_file.specs.Sound.{is_wide};

use crate::PoolFault;
use aj_names::{ByteString, Items};
use class_file::PoolEntry;
use indexmap::IndexMap;
use std::alloc::{AllocError, Global};
use std::marker::Model;

/// A constant pool to which entries are added (JVMS 4.4). It is seen as the list of its entries, whose
/// count is at most 65535, so that there are at most 65534. Each call that adds answers the least
/// index of an equal entry, or else appends it, and what it names before it. Old entries keep their
/// indices. A call that is refused leaves the pool as it was.
#[derive(Drop)]
pub struct PoolEdit {
    entries: Vec<PoolEntry>,
    places: IndexMap<PoolEntry, u16>,
}

impl Model for PoolEdit {
    ghost use Rattle.std.specs.Prelude.{List};
    ghost use Rattle.class_file.specs.declared.pool.PoolEntry.{PoolEntry};
    ghost use Rattle.constant_pool.specs.Places.{IsIndexed};

    ghost Value = { List PoolEntry };

    ghost view = { λ e. e.entries.items };

    ghost invariant = { λ e. IsIndexed e.entries.items e.places };
}

// The most entries that a pool has: its count, one more, takes two bytes.
const MOST: usize = 65534;

fn copy_entry(entry: &PoolEntry) -> Result<PoolEntry, AllocError>
    ensures { IfOk result (λ copy. copy ≡ entry.now) }
{
    Ok(match entry {
        PoolEntry::Utf8(text) => PoolEntry::Utf8(text.copy()?),
        PoolEntry::Integer(number) => PoolEntry::Integer(*number),
        PoolEntry::Float(bits) => PoolEntry::Float(*bits),
        PoolEntry::Long(number) => PoolEntry::Long(*number),
        PoolEntry::Double(bits) => PoolEntry::Double(*bits),
        PoolEntry::Class(name) => PoolEntry::Class(*name),
        PoolEntry::String(text) => PoolEntry::String(*text),
        PoolEntry::Fieldref(class, member) => PoolEntry::Fieldref(*class, *member),
        PoolEntry::Methodref(class, member) => PoolEntry::Methodref(*class, *member),
        PoolEntry::InterfaceMethodref(class, member) => {
            PoolEntry::InterfaceMethodref(*class, *member)
        }
        PoolEntry::NameAndType(name, descriptor) => PoolEntry::NameAndType(*name, *descriptor),
        PoolEntry::Second => PoolEntry::Second,
    })
}

impl PoolEdit {
    fn empty(alloc: Global) -> PoolEdit
        ensures { result ≡ [] }
    {
        PoolEdit {
            entries: Vec::new(alloc),
            places: IndexMap::new(alloc),
        }
    }

    /// An edit of a pool that has these entries, at most 65534.
    pub fn new(alloc: Global, pool: &[PoolEntry]) -> Result<PoolEdit, AllocError>
        requires { length pool.now ≤ 65534 }
        ensures { IfOk result (λ edit. edit ≡ pool.now) }
    {
        let mut edit = PoolEdit::empty(alloc);
        for entry in pool {
            edit.append(copy_entry(entry)?)?;
        }
        Ok(edit)
    }

    /// The entries so far.
    pub fn entries(&self) -> &[PoolEntry]
        ensures entries { result.now ≡ self.now }
        ensures fits { length self.now ≤ 65534 }
    {
        self.entries.as_slice()
    }

    /// The entries, with no memory taken.
    pub fn finish(self) -> Items<PoolEntry>
        ensures entries { result ≡ self }
        ensures fits { length self ≤ 65534 }
    {
        let PoolEdit { entries, places } = self;
        drop(places);
        Items::from_vec(entries)
    }

    // Appends the entry.
    fn append(&mut self, entry: PoolEntry) -> Result<(), AllocError>
        requires { length self.old < 65534 }
        ensures ok { OnOk result (self.new ≡ self.old ++ entry ∷ []) }
        ensures err { OnErr result (self.new ≡ self.old) }
    {
        if self.places.contains_key(&entry) {
            self.entries.push(entry)?;
            return Ok(());
        }
        let key = copy_entry(&entry)?;
        let index = self.entries.len() as u16 + 1;
        self.entries.reserve(1)?;
        self.places.insert(key, index)?;
        self.entries.push_reserved(entry);
        Ok(())
    }

    // Takes the last entry away, if there is one.
    fn remove_last(&mut self)
        ensures { self.new ≡ take (length self.old - 1) self.old }
    {
        if let Some(last) = self.entries.pop() {
            let index = self.entries.len() as u16 + 1;
            if self.places.get(&last).copied() == Some(index) {
                let _ = self.places.swap_remove(&last);
            }
        }
    }

    // Takes away all but the first entries.
    pub(crate) fn cut(&mut self, len: usize)
        ensures cut { self.new ≡ take len self.old }
        ensures fits { length self.new ≤ 65534 }
    {
        while self.entries.len() > len {
            self.remove_last();
        }
    }

    // Appends the entry, at one index.
    fn append_narrow(&mut self, entry: PoolEntry) -> Result<u16, PoolFault>
        ensures found { Gives (self.old ++ entry ∷ [], length self.old + 1) self.new result }
        ensures full { IsFull (self.old ++ entry ∷ [], length self.old + 1) result }
        ensures fits { length self.new ≤ 65534 }
        ensures kept { OnErr result (self.new ≡ self.old) }
    {
        let len = self.entries.len();
        if len + 1 > MOST {
            return Err(PoolFault::PoolFull);
        }
        self.append(entry)?;
        Ok(len as u16 + 1)
    }

    // Appends a Long or Double, and its second index.
    fn append_wide(&mut self, entry: PoolEntry) -> Result<u16, PoolFault>
        ensures found { Gives (self.old ++ entry ∷ PoolEntry.Second ∷ [], length self.old + 1) self.new result }
        ensures full { IsFull (self.old ++ entry ∷ PoolEntry.Second ∷ [], length self.old + 1) result }
        ensures fits { length self.new ≤ 65534 }
        ensures kept { OnErr result (self.new ≡ self.old) }
    {
        let len = self.entries.len();
        if len + 2 > MOST {
            return Err(PoolFault::PoolFull);
        }
        self.append(entry)?;
        match self.append(PoolEntry::Second) {
            Ok(()) => Ok(len as u16 + 1),
            Err(_) => {
                self.cut(len);
                Err(PoolFault::Memory)
            }
        }
    }

    // The least index of an equal entry.
    fn find(&self, entry: &PoolEntry) -> Option<u16>
        ensures least { result ≡ least_index self.now entry.now }
        ensures fits { length self.now ≤ 65534 }
    {
        self.places.get(entry).copied()
    }

    // The index of the first equal entry, or of this one, appended.
    pub(crate) fn place(&mut self, entry: PoolEntry) -> Result<u16, PoolFault>
        ensures found { Gives (with_entry self.old entry) self.new result }
        ensures full { IsFull (with_entry self.old entry) result }
        ensures fits { length self.new ≤ 65534 }
        ensures stands { IfOk result (λ index. entry_at self.new index ≡ Some entry) }
        ensures stays { Extends self.old self.new }
        ensures kept { OnErr result (self.new ≡ self.old) }
    {
        match self.find(&entry) {
            Some(index) => Ok(index),
            None if takes_two(&entry) => self.append_wide(entry),
            None => self.append_narrow(entry),
        }
    }

    pub(crate) fn allocator(&self) -> Global
        ensures fits { length self.now ≤ 65534 }
    {
        *self.entries.allocator()
    }

    pub(crate) fn text(&mut self, text: &[u8]) -> Result<u16, PoolFault>
        ensures found { Gives (with_text self.old text.now) self.new result }
        ensures full { IsFull (with_text self.old text.now) result }
        ensures fits { length self.new ≤ 65534 }
        ensures kept { OnErr result (self.new ≡ self.old) }
    {
        let text = ByteString::from_slice(self.allocator(), text)?;
        self.place(PoolEntry::Utf8(text))
    }
}

// Whether the entry takes two indices.
fn takes_two(entry: &PoolEntry) -> bool
    ensures { result ≡ is_wide entry.now }
{
    matches!(entry, PoolEntry::Long(_) | PoolEntry::Double(_))
}
