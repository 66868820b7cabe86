//! Why nothing ran.

ghost use Rattle.std.specs.Prelude.{◌≡◌};
ghost use Rattle.run_plan.specs.declared.fault.RunFault.TheVariants.{Memory};

use class_world::WorldFault;
use std::alloc::{AllocError, AllocFailed};
use thiserror::Error;

/// Why nothing ran.
#[derive(Debug, Drop, PartialEq, Eq, Error)]
pub enum RunFault {
    /// The classes have this first fault as a world.
    #[error("{0}")]
    World(WorldFault),
    /// No method takes the entry.
    #[error("no method takes the entry")]
    NoEntry,
    /// Memory ran out.
    #[error("out of memory")]
    Memory,
}

impl From<AllocError> for RunFault {
    ghost from_gives = { λ _ e. e ≡ Memory };

    fn from(_error: AllocError) -> RunFault {
        RunFault::Memory
    }
}

impl<T: Drop> From<AllocFailed<T>> for RunFault {
    ghost from_gives = { λ _ e. e ≡ Memory };

    fn from(_error: AllocFailed<T>) -> RunFault {
        RunFault::Memory
    }
}
