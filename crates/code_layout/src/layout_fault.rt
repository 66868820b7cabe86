//! Why blocks are not laid out.

ghost use Rattle.std.specs.Prelude.{◌≡◌};
ghost use Rattle.code_layout.specs.declared.layout_fault.LayoutFault.TheVariants as faults;

use std::alloc::{AllocError, AllocFailed};
use thiserror::Error;

/// Why blocks are not laid out.
#[derive(Clone, Copy, Debug, PartialEq, Eq, Error)]
pub enum LayoutFault {
    /// The code would have so many bytes, and more than 65535 (JVMS 4.10).
    #[error("{0} bytes of code are too many")]
    TooLong(u64),
    /// The exception table would have so many entries, and more than 65535 (JVMS 4.7.3).
    #[error("{0} entries of the exception table are too many")]
    TooManyEntries(u64),
    /// There was not enough memory.
    #[error("out of memory")]
    Memory,
}

impl From<AllocError> for LayoutFault {
    ghost from_gives = { λ _ fault. fault ≡ faults.Memory };

    fn from(_: AllocError) -> LayoutFault {
        LayoutFault::Memory
    }
}

impl<T: Drop> From<AllocFailed<T>> for LayoutFault {
    ghost from_gives = { λ _ fault. fault ≡ faults.Memory };

    fn from(_: AllocFailed<T>) -> LayoutFault {
        LayoutFault::Memory
    }
}
