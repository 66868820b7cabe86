//! Why code is not taken apart.

ghost use Rattle.std.specs.Prelude.{◌≡◌};
ghost use Rattle.code_layout.specs.declared.fault.TakeApartFault.TheVariants as faults;

use opcode_table::CodeFault;
use std::alloc::{AllocError, AllocFailed};
use thiserror::Error;

/// Why code is not taken apart.
#[derive(Clone, Copy, Debug, PartialEq, Eq, Error)]
pub enum TakeApartFault {
    /// No instruction stands at a place where the one before ends.
    #[error("{0}")]
    Code(CodeFault),
    /// The branch or switch at this place leads to where no instruction begins, or an entry of the
    /// exception table names this place and no instruction begins there (JVMS 4.7.3, 4.8.1).
    #[error("no instruction begins where {0} says")]
    Target(u32),
    /// There was not enough memory.
    #[error("out of memory")]
    Memory,
}

impl From<AllocError> for TakeApartFault {
    ghost from_gives = { λ _ fault. fault ≡ faults.Memory };

    fn from(_: AllocError) -> TakeApartFault {
        TakeApartFault::Memory
    }
}

impl<T: Drop> From<AllocFailed<T>> for TakeApartFault {
    ghost from_gives = { λ _ fault. fault ≡ faults.Memory };

    fn from(_: AllocFailed<T>) -> TakeApartFault {
        TakeApartFault::Memory
    }
}
