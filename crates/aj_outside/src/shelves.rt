//! Shelves of named files.
ghost use Rattle.std.specs.Prelude.{◌≡◌, ◌≢◌, ◌≤◌, ◌<◌, ◌↔◌, ◌++◌, Option, ℕ, IfOk, IfSome, OnOk, OnErr, vec_len, take, All, is_some, option_map, true, false, None, Some};
ghost use Rattle.aj_outside.specs.Counts.{Rose, ComesWithRise, last_count};
ghost use Rattle.aj_outside.specs.Files.{Files, AreFiles, AreRising, file_at, put_file, names_under, is_under, OthersStay};

use crate::names::Name;
use std::alloc::Global;
use thiserror::Error;

/// Why a call of a [`Shelf`] was refused.
#[derive(Clone, Copy, Debug, PartialEq, Eq, Error)]
pub enum ShelfFault {
    /// The outside failed.
    #[error("the files could not be reached")]
    Failed,
    /// There is no file of the name that was to be read.
    #[error("there is no such file")]
    NoSuchFile,
    /// Memory ran out.
    #[error("out of memory")]
    Memory,
}

/// Named files outside the program.
///
/// A shelf may tell what files it holds (`held`), and has three counts that never fall: of the failures
/// of `list` and `read` (`faults`), of the failures of `write` (`write_faults`), and of the reads that
/// found no file (`missing`). Whether it tells is never changed by a call.
pub trait Shelf {
    ghost held: { Self → Option Files };

    ghost faults: { Self → ℕ };

    ghost write_faults: { Self → ℕ };

    ghost missing: { Self → ℕ };

    /// The first `most` names under a folder, at any depth, in byte order.
    ///
    /// # Errors
    /// `Failed` where the outside fails, and `Memory`.
    fn list(&mut self, alloc: Global, under: &str, most: u32) -> Result<Vec<Name>, ShelfFault>
        ensures given { IfOk result (λ listed. IfSome (held self.old) (λ files. listed.items ≡ take most (names_under under.now files))) }
        ensures few { IfOk result (λ listed. vec_len listed ≤ most) }
        ensures rising { IfOk result (λ listed. AreRising listed.items) }
        ensures under { IfOk result (λ listed. All (λ name. is_under under.now name ≡ true) listed.items) }
        ensures failed { ComesWithRise (result ≡ Err ShelfFault.Failed) (faults self.old) (faults self.new) }
        ensures found { result ≢ Err ShelfFault.NoSuchFile }
        ensures writes { write_faults self.new ≡ write_faults self.old }
        ensures reads { missing self.new ≡ missing self.old }
        ensures kept { held self.new ≡ held self.old }
        ensures ordered { IfSome (held self.new) AreFiles };

    /// The first `most` bytes of a file.
    ///
    /// # Errors
    /// `NoSuchFile` where there is none of this name, `Failed` where the outside fails, and `Memory`.
    fn read(&mut self, alloc: Global, name: &Name, most: u32) -> Result<Vec<u8>, ShelfFault>
        ensures given { IfOk result (λ bytes. IfSome (held self.old) (λ files. option_map (take most) (file_at files name.now) ≡ Some bytes.items)) }
        ensures few { IfOk result (λ bytes. vec_len bytes ≤ most) }
        ensures failed { ComesWithRise (result ≡ Err ShelfFault.Failed) (faults self.old) (faults self.new) }
        ensures absent { ComesWithRise (result ≡ Err ShelfFault.NoSuchFile) (missing self.old) (missing self.new) }
        ensures nowhere { IfSome (held self.old) (λ files. faults self.old < last_count → (result ≡ Err ShelfFault.NoSuchFile) ↔ ((file_at files name.now ≡ None) × ¬ Rose (faults self.old) (faults self.new))) }
        ensures writes { write_faults self.new ≡ write_faults self.old }
        ensures kept { held self.new ≡ held self.old }
        ensures ordered { IfSome (held self.new) AreFiles };

    /// Sets the bytes of a file, which is made where there is none of this name.
    ///
    /// # Errors
    /// `Failed` where the outside fails, and `Memory`. After either the bytes of this name are
    /// unknown, and all other names stay.
    fn write(&mut self, name: &Name, bytes: &[u8]) -> Result<(), ShelfFault>
        ensures written { OnOk result (held self.new ≡ option_map (λ files. put_file files name.now bytes.now) (held self.old)) }
        ensures refused { OnErr result (OthersStay name.now (held self.old) (held self.new)) }
        ensures failed { ComesWithRise (result ≡ Err ShelfFault.Failed) (write_faults self.old) (write_faults self.new) }
        ensures found { result ≢ Err ShelfFault.NoSuchFile }
        ensures reads { (faults self.new ≡ faults self.old) × (missing self.new ≡ missing self.old) }
        ensures told { is_some (held self.new) ≡ is_some (held self.old) }
        ensures ordered { IfSome (held self.new) AreFiles };
}
