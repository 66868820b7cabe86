//! Why a text is not read.

ghost use Rattle.std.specs.Prelude.{◌≡◌};
ghost use Rattle.run_lines.specs.declared.fault.WordFault.TheVariants as word_faults;
ghost use Rattle.run_lines.specs.declared.fault.ScriptFault.TheVariants as script_faults;

use std::alloc::{AllocError, AllocFailed};
use thiserror::Error;

/// Why a word is not read.
#[derive(Clone, Copy, Debug, PartialEq, Eq, Error)]
pub(crate) enum WordFault {
    /// It is not of the form.
    #[error("not of the form")]
    Form,
    /// There was not enough memory.
    #[error("out of memory")]
    Memory,
}

impl From<AllocError> for WordFault {
    ghost from_gives = { λ _ fault. fault ≡ word_faults.Memory };

    fn from(_: AllocError) -> WordFault {
        WordFault::Memory
    }
}

impl<T: Drop> From<AllocFailed<T>> for WordFault {
    ghost from_gives = { λ _ fault. fault ≡ word_faults.Memory };

    fn from(_: AllocFailed<T>) -> WordFault {
        WordFault::Memory
    }
}

/// Why a script is not read.
#[derive(Clone, Copy, Debug, PartialEq, Eq, Error)]
pub enum ScriptFault {
    /// The first line that is not of the form, from 1 on.
    #[error("line {0} is not of the form")]
    Line(u64),
    /// There was not enough memory.
    #[error("out of memory")]
    Memory,
}

impl From<AllocError> for ScriptFault {
    ghost from_gives = { λ _ fault. fault ≡ script_faults.Memory };

    fn from(_: AllocError) -> ScriptFault {
        ScriptFault::Memory
    }
}
