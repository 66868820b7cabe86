//! Why a command stopped.
ghost use Rattle.std.specs.Prelude.{◌≡◌, IfOk, true};
ghost use Rattle.aj_outside.specs.Files.{is_under};
ghost use Rattle.ajweave.specs.Answers.{in_folder};
ghost use Rattle.ajweave.specs.Steps.{stop_of_read};

use crate::status::Refusal;
use aj_outside::{Name, ShelfFault};
use std::alloc::{AllocError, Global};

/// Why a command stopped.
#[derive(Debug, Drop)]
pub(crate) enum Stop {
    /// The shelf failed to list or to read.
    Read,
    /// The shelf failed to write.
    Write,
    /// The input is refused.
    Refused(Refusal),
    /// Memory ran out.
    Memory,
}

impl Stop {
    /// Why a command stopped whose shelf didn't list or read.
    pub(crate) fn reading(fault: ShelfFault) -> Stop
        ensures { result ≡ stop_of_read fault }
    {
        match fault {
            ShelfFault::Failed | ShelfFault::NoSuchFile => Stop::Read,
            ShelfFault::Memory => Stop::Memory,
        }
    }
}

/// The name of a file of a folder without the folder.
pub(crate) fn name_within(alloc: Global, folder: &str, name: &Name) -> Result<Name, AllocError>
    requires under { is_under folder.now name.now ≡ true }
    ensures rest { IfOk result (λ rest. name.now ≡ in_folder folder.now rest) }
{
    let rest = name.strip_folder(folder).unwrap();
    Name::from_str(alloc, rest)
}
