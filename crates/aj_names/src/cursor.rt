//! A reader of big-endian numbers and runs of bytes.

ghost use Rattle.std.specs.Prelude.{◌≡◌, ◌<◌, ◌↔◌, length, take, drop, nat_eq, slice_get, IsNone, IfSome, OnSome, IfNone};
ghost use Rattle.std.specs.Int.{w16, w32, from_be_bytes};

use std::marker::Model;

/// The bytes that are left of a class file. Numbers are big-endian (JVMS 4). A call that finds too
/// few bytes left gives `None` and takes none.
#[derive(Debug, Drop)]
pub struct Cursor<'a> {
    left: &'a [u8],
}

impl<'a> Model for Cursor<'a> {
    ghost use Rattle.std.specs.Prelude.{List, ℕ};

    ghost Value = { List ℕ };

    ghost view = { λ c. c.left.now };
}

impl<'a> Cursor<'a> {
    /// At the start of the bytes.
    pub fn new(bytes: &'a [u8]) -> Cursor<'a>
        ensures { result ≡ bytes.now }
    {
        Cursor { left: bytes }
    }

    /// How many bytes are left.
    pub fn len(&self) -> usize
        ensures { result ≡ length self.now }
    {
        self.left.len()
    }

    /// Whether no byte is left.
    pub fn is_empty(&self) -> bool
        ensures { result ≡ nat_eq (length self.now) 0 }
    {
        self.left.is_empty()
    }

    /// A byte.
    pub fn u1(&mut self) -> Option<u8>
        ensures none { IsNone result ↔ (length self.old < 1) }
        ensures value { IfSome result (λ n. slice_get self.old 0 ≡ Some n) }
        ensures after { OnSome result (self.new ≡ drop 1 self.old) }
        ensures stays { IfNone result (self.new ≡ self.old) }
    {
        let (first, rest) = self.left.split_first()?;
        self.left = rest;
        Some(*first)
    }

    /// A number of two bytes.
    pub fn u2(&mut self) -> Option<u16>
        ensures none { IsNone result ↔ (length self.old < 2) }
        ensures value { IfSome result (λ n. n ≡ from_be_bytes w16 (take 2 self.old)) }
        ensures after { OnSome result (self.new ≡ drop 2 self.old) }
        ensures stays { IfNone result (self.new ≡ self.old) }
    {
        if self.left.len() < 2 {
            return None;
        }
        let (front, rest) = self.left.split_at(2);
        self.left = rest;
        Some(u16::from_be_bytes([front[0], front[1]]))
    }

    /// A number of four bytes.
    pub fn u4(&mut self) -> Option<u32>
        ensures none { IsNone result ↔ (length self.old < 4) }
        ensures value { IfSome result (λ n. n ≡ from_be_bytes w32 (take 4 self.old)) }
        ensures after { OnSome result (self.new ≡ drop 4 self.old) }
        ensures stays { IfNone result (self.new ≡ self.old) }
    {
        if self.left.len() < 4 {
            return None;
        }
        let (front, rest) = self.left.split_at(4);
        self.left = rest;
        Some(u32::from_be_bytes([front[0], front[1], front[2], front[3]]))
    }

    /// The next `n` bytes.
    pub fn take(&mut self, n: u32) -> Option<&'a [u8]>
        ensures none { IsNone result ↔ (length self.old < n) }
        ensures value { IfSome result (λ bytes. bytes.now ≡ take n self.old) }
        ensures after { OnSome result (self.new ≡ drop n self.old) }
        ensures stays { IfNone result (self.new ≡ self.old) }
    {
        let n = n as usize;
        if self.left.len() < n {
            return None;
        }
        let (front, rest) = self.left.split_at(n);
        self.left = rest;
        Some(front)
    }
}
