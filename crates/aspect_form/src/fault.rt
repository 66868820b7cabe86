//! Why the text of an aspect is not read.

ghost use Rattle.std.specs.Prelude.{◌≡◌};
ghost use Rattle.aspect_form.specs.declared.fault.AspectFault.TheVariants.{Memory};

use std::alloc::AllocError;
use std::error::Error;
use std::fmt;

/// Why the text of an aspect is not read.
#[derive(Clone, Copy, Debug, PartialEq, Eq)]
pub enum AspectFault {
    /// The text is that of no aspect of the form that is built.
    NotBuilt,
    /// There was not enough memory.
    Memory,
}

impl fmt::Display for AspectFault {
    fn fmt<W: fmt::Write>(&self, f: &mut fmt::Formatter<W>) -> fmt::Result {
        match self {
            AspectFault::NotBuilt => write!(f, "not an aspect of the form that is built"),
            AspectFault::Memory => write!(f, "out of memory"),
        }
    }
}

impl Error for AspectFault {}

impl From<AllocError> for AspectFault {
    ghost from_gives = { λ _ e. e ≡ Memory };

    fn from(_error: AllocError) -> AspectFault {
        AspectFault::Memory
    }
}
