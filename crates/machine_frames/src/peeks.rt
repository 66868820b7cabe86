//! Whether what an instruction takes is there. An instruction whose class is to be initialised first
//! leaves its frame as it is (JVMS 2.17.4), but breaks the run where it can't take what it needs.

ghost use Rattle.std.specs.Prelude.{◌≡◌, reverse};
ghost use Rattle.machine_frames.specs.Calls.{fits};
ghost use Rattle.machine_frames.specs.Peeks.{TellsPut, TellsCall};

use crate::kinds::is_of;
use class_machine::kinds::Kind;
use machine_values::{Frame, Value};

// Whether the last values are of the kinds, one by one.
fn fits(items: &[Value], kinds: &[Kind]) -> bool
    ensures { result ≡ fits (reverse kinds.now) (reverse items.now) }
{
    if items.len() < kinds.len() {
        return false;
    }
    let below = items.len() - kinds.len();
    let mut left = kinds.len();
    'fitting: while left > 0 {
        left -= 1;
        let does = is_of(kinds[left], &items[below + left]);
        if !does {
            return false;
        }
    }
    true
}

/// Whether `putstatic` has a value of the kind to take.
pub fn can_put_static(frame: &Frame, kind: Kind) -> bool
    ensures { TellsPut kind frame.now result }
{
    fits(frame.operands.as_slice(), &[kind])
}

/// Whether `invokestatic` of a method whose parameters have these kinds has arguments to take.
pub fn can_call_static(frame: &Frame, kinds: &[Kind]) -> bool
    ensures { TellsCall kinds.now frame.now result }
{
    fits(frame.operands.as_slice(), kinds)
}
