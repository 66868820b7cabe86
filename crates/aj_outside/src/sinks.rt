//! Sinks of printed bytes.
ghost use Rattle.std.specs.Prelude.{◌≡◌, ◌++◌, List, [], Option, ℕ, OnOk, OnErr, option_map};
ghost use Rattle.aj_outside.specs.Counts.{ComesWithRise};
ghost use Rattle.aj_outside.specs.Files.{AppendsPrefix};

use thiserror::Error;

/// Why a call of a [`Sink`] was refused.
#[derive(Clone, Copy, Debug, PartialEq, Eq, Error)]
pub enum SinkFault {
    /// The outside failed.
    #[error("the output could not be written")]
    Failed,
    /// Memory ran out.
    #[error("out of memory")]
    Memory,
}

/// A place to which bytes are appended.
///
/// A sink may tell what was written to it (`written`), and has a count of its failures (`faults`) that
/// never falls.
pub trait Sink {
    ghost written: { Self → Option (List ℕ) };

    ghost faults: { Self → ℕ };

    /// Appends the bytes. No bytes are always taken.
    ///
    /// # Errors
    /// `Failed` where the outside fails, and `Memory`. After either some first bytes were appended.
    fn put(&mut self, bytes: &[u8]) -> Result<(), SinkFault>
        ensures appended { OnOk result (written self.new ≡ option_map (λ before. before ++ bytes.now) (written self.old)) }
        ensures refused { OnErr result (AppendsPrefix bytes.now (written self.old) (written self.new)) }
        ensures failed { ComesWithRise (result ≡ Err SinkFault.Failed) (faults self.old) (faults self.new) }
        ensures nothing { bytes.now ≡ [] → (result ≡ Ok tt) × (written self.new ≡ written self.old) × (faults self.new ≡ faults self.old) };
}
