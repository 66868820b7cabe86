//! Where an item of a class file stands.

use crate::fault::ClassFault;

/// What the bytes at hand are of a class file.
#[derive(Clone, Copy, Debug, PartialEq, Eq)]
pub(crate) struct Scope {
    /// The fault where an item passes their end.
    pub(crate) cut: ClassFault,
    /// The offset of their end in the file.
    pub(crate) end: usize,
}
