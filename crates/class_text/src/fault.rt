//! Why a text is no class.

ghost use Rattle.std.specs.Prelude.{◌≡◌};
ghost use Rattle.class_text.specs.declared.fault.TextFault.TheVariants as faults;

use std::alloc::AllocError;
use thiserror::Error;

/// Why a text is not read as a class.
#[derive(Clone, Copy, Debug, PartialEq, Eq, Error)]
pub enum TextFault {
    /// The first line, counted from 1, that isn't of the form.
    #[error("line {0} is not of the form")]
    Line(usize),
    /// There was not enough memory.
    #[error("out of memory")]
    Memory,
}

impl From<AllocError> for TextFault {
    ghost from_gives = { λ _ fault. fault ≡ faults.Memory };

    fn from(_: AllocError) -> TextFault {
        TextFault::Memory
    }
}
