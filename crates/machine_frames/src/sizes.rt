//! The sizes of new arrays (JVMS 3.11.5).

ghost use Rattle.std.specs.Prelude.{◌≡◌, ℕ, [], ◌∷◌, map, reverse, MatchOption, IfOk, IfSome, OnErr};
ghost use Rattle.machine_values.specs.declared.values.Value.TheVariants.{Int};
ghost use Rattle.machine_values.specs.States.{IsFrameWithin};
ghost use Rattle.machine_frames.specs.Operands.{StaysKnown};
ghost use Rattle.machine_frames.specs.Sizes.{PopsInts, LacksInts, Sizes, SizesBreak};
ghost use Rattle.machine_frames.specs.Undoing.{IsTaken, TakesAll};

use crate::operands;
use machine_values::{Frame, Operands};
use std::alloc::{AllocError, Global};

/// The size of an array of the type that the instruction names (JVMS 6, `anewarray`), taken from the
/// operands. None: the run is Broken.
pub fn pop_size(frame: &mut Frame) -> Option<i32>
    ensures rest { frame.new ≡ record frame.old { operands = frame.new.operands } }
    ensures room { frame.new.operands.room ≡ frame.old.operands.room }
    ensures taken { MatchOption result (SizesBreak 1 frame.old) (λ x. Sizes 1 frame.old (x ∷ []) frame.new) }
    ensures within { (count : ℕ) → IsFrameWithin count frame.old → IsFrameWithin count frame.new }
    ensures popped { IfSome result (λ x. IsTaken frame.old (Int x ∷ []) frame.new) }
{
    operands::pop_int(&mut frame.operands)
}

// Takes so many ints, of which the last is topmost.
fn pop_ints(
    alloc: Global,
    operands: &mut Operands,
    count: u8,
) -> Result<Option<Vec<i32>>, AllocError>
    ensures room { operands.new.room ≡ operands.old.room }
    ensures taken { IfOk result (λ o. MatchOption o (LacksInts count operands.old) (λ xs. PopsInts count operands.old xs.items operands.new)) }
    ensures within { StaysKnown operands.old operands.new }
    ensures err { OnErr result (operands.new ≡ operands.old) }
    ensures popped { IfOk result (λ o. IfSome o (λ xs. TakesAll operands.old (reverse (map Int xs.items)) operands.new)) }
{
    let mut sizes = vec![in alloc; 0; count as usize]?;
    let mut left = count as usize;
    'taking: while left > 0 {
        left -= 1;
        let Some(size) = operands::pop_int(operands) else {
            return Ok(None)
        };
        sizes[left] = size;
    }
    Ok(Some(sizes))
}

/// The sizes of an array and of the arrays in it, so many (JVMS 6, `multianewarray`), taken from the
/// operands. None: the run is Broken.
///
/// # Errors
/// Where there is no memory; the frame is as it was then.
pub fn pop_sizes(
    alloc: Global,
    frame: &mut Frame,
    count: u8,
) -> Result<Option<Vec<i32>>, AllocError>
    ensures rest { frame.new ≡ record frame.old { operands = frame.new.operands } }
    ensures room { frame.new.operands.room ≡ frame.old.operands.room }
    ensures taken { IfOk result (λ o. MatchOption o (SizesBreak count frame.old) (λ xs. Sizes count frame.old xs.items frame.new)) }
    ensures within { (many : ℕ) → IsFrameWithin many frame.old → IsFrameWithin many frame.new }
    ensures err { OnErr result (frame.new ≡ frame.old) }
    ensures popped { IfOk result (λ o. IfSome o (λ xs. IsTaken frame.old (reverse (map Int xs.items)) frame.new)) }
{
    pop_ints(alloc, &mut frame.operands, count)
}
