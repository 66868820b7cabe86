//! Tokens of objects that aren't made yet (JVMS 6, `new`).

ghost use Rattle.std.specs.Prelude.{◌≡◌, ℕ, ◌+◌, ◌<◌, ◌≤◌, ◌^◌, map, max, MatchOption, IfOk, OnErr};
ghost use Rattle.std.specs.Bool.{MatchBool};
ghost use Rattle.class_machine.specs.Values as machine;
ghost use Rattle.class_machine.specs.Values.{filled_in, filled_local};
ghost use Rattle.machine_values.specs.States.{IsFrameWithin};
ghost use Rattle.machine_frames.specs.Naming.{Naming, object as named};
ghost use Rattle.machine_frames.specs.Effects.{operands_of, locals_of};
ghost use Rattle.machine_frames.specs.Tokens.{number_of, number_in, highest, highest_in, Announces, AnnounceBreaks, IsSpent};

use crate::operands::push;
use aj_names::ClassId;
use machine_values::{Frame, Local, Ref, Value};
use std::alloc::AllocError;

// The larger one.
fn larger(a: u64, b: u64) -> u64
    ensures { result ≡ max a b }
{
    if a < b { b } else { a }
}

// The number of a token, and 0 of what is none.
fn number_of(held: &Value) -> u64
    ensures { result ≡ number_of held.now }
{
    match held {
        Value::Token(_, number) => *number,
        _ => 0,
    }
}

// The highest number of a token among the values.
fn highest(values: &[Value]) -> u64
    ensures { result ≡ highest values.now }
{
    let mut most = 0;
    for held in values {
        most = larger(most, number_of(held));
    }
    most
}

// The number of a token that the local holds, and 0 where it holds none.
fn number_in(local: &Local) -> u64
    ensures { result ≡ number_in local.now }
{
    match local {
        Local::Holds(held) => number_of(held),
        _ => 0,
    }
}

// The highest number of a token among the locals.
fn highest_in(locals: &[Local]) -> u64
    ensures { result ≡ highest_in locals.now }
{
    let mut most = 0;
    for local in locals {
        most = larger(most, number_in(local));
    }
    most
}

/// The number of the next token of the frame: one more than the highest one, if it has 64 bits.
#[tactic(auto, using(crate::proofs::Fresh::highest_reverse))]
pub fn next_number(frame: &Frame) -> Option<u64>
    ensures { MatchOption result (2 ^ 64 ≤ 1 + max (highest frame.now.operands.values) (highest_in frame.now.locals)) (λ n. n ≡ 1 + max (highest frame.now.operands.values) (highest_in frame.now.locals)) }
{
    let most = larger(
        highest(frame.operands.as_slice()),
        highest_in(frame.locals.as_slice()),
    );
    if most == u64::MAX {
        return None;
    }
    Some(most + 1)
}

/// Puts a token of the class on top, with a number that no other token of the frame has (JVMS 6,
/// `new`), and says whether there was room. Where there wasn't, the run is Broken.
///
/// # Errors
/// Where no number is left; the frame is as it was then. It takes no memory.
#[tactic(auto, using(crate::proofs::Fresh::spent))]
pub fn announce(frame: &mut Frame, class: ClassId) -> Result<bool, AllocError>
    ensures rest { frame.new ≡ record frame.old { operands = frame.new.operands } }
    ensures room { frame.new.operands.room ≡ frame.old.operands.room }
    ensures announced { IfOk result (λ b. MatchBool b (Announces frame.old class frame.new) (AnnounceBreaks frame.old class)) }
    ensures within { (count : ℕ) → IsFrameWithin count frame.old → IsFrameWithin count frame.new }
    ensures spent { OnErr result (IsSpent frame.old) }
    ensures err { OnErr result (frame.new ≡ frame.old) }
{
    let Some(number) = next_number(frame) else {
        return Err(AllocError)
    };
    Ok(push(&mut frame.operands, Value::Token(class, number)))
}

/// Every copy of the token of this number becomes the object (JVMS 6, `new`). It takes no memory.
pub fn fill_in(frame: &mut Frame, number: u64, object: Ref)
    ensures rest { frame.new ≡ record frame.old { operands = frame.new.operands; locals = frame.new.locals } }
    ensures room { frame.new.operands.room ≡ frame.old.operands.room }
    ensures operands { (n : Naming) → operands_of n frame.new ≡ map (filled_in number (machine.Reference (named n object))) (operands_of n frame.old) }
    ensures locals { (n : Naming) → locals_of n frame.new ≡ map (filled_local number (machine.Reference (named n object))) (locals_of n frame.old) }
    ensures within { (count : ℕ) → object.0 < count → IsFrameWithin count frame.old → IsFrameWithin count frame.new }
{
    frame.operands.fill_in(number, object);
    frame.locals.fill_in(number, object);
}
