//! Why bytes are no class file.

ghost use Rattle.std.specs.Prelude.{◌≡◌};
ghost use Rattle.class_format.specs.declared.fault.ClassFault.TheVariants.{Memory};

use std::alloc::{AllocError, AllocFailed};
use thiserror::Error;

/// Why bytes are no class file (JVMS 4.1 to 4.8): the first fault that reading in byte order meets.
/// Offsets are in bytes from the start of the file.
#[derive(Clone, Copy, Debug, PartialEq, Eq, Error)]
pub enum ClassFault {
    /// The file begins with four other bytes than 0xCAFEBABE.
    #[error("no class file")]
    Magic,
    /// The major version is none of 46 to 49.
    #[error("version {0}")]
    Version(u16),
    /// The file ends before the item at hand, or before the end that an attribute's length gives. It
    /// names the file's length.
    #[error("cut at {0}")]
    Truncated(usize),
    /// Bytes follow the class, from this offset on.
    #[error("bytes follow from {0} on")]
    Trailing(usize),
    /// The tag of the pool entry of this index is none of the format, or it is that of a Long or Double
    /// at the last index.
    #[error("pool entry {0} has the tag {1}")]
    PoolTag(u16, u8),
    /// A pool entry of this index names what it may not; elsewhere, this index stands for nothing that
    /// may stand there.
    #[error("wrong reference to the pool: {0}")]
    PoolRef(u16),
    /// The text of the pool entry of this index is no modified UTF-8.
    #[error("pool entry {0} is no text")]
    Utf8(u16),
    /// An item of the attribute whose length stands at this offset would pass the attribute's end, or the
    /// content ends before it.
    #[error("wrong length of an attribute at {0}")]
    AttributeLength(usize),
    /// The code of the method of this position is wrong at this place.
    #[error("wrong code in method {0} at {1}")]
    Code(u16, u32),
    /// There was not enough memory.
    #[error("out of memory")]
    Memory,
}

impl From<AllocError> for ClassFault {
    ghost from_gives = { λ _ e. e ≡ Memory };

    fn from(_e: AllocError) -> ClassFault {
        ClassFault::Memory
    }
}

impl<T: Drop> From<AllocFailed<T>> for ClassFault {
    ghost from_gives = { λ _ e. e ≡ Memory };

    fn from(_e: AllocFailed<T>) -> ClassFault {
        ClassFault::Memory
    }
}
