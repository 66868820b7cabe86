//! Reading and writing locals (JVMS 3.6.1).

ghost use Rattle.std.specs.Prelude.{◌≡◌, ℕ, true, length, MatchOption, IfSome};
ghost use Rattle.std.specs.Bool.{MatchBool};
ghost use Rattle.machine_values.specs.States.{is_known};
ghost use Rattle.machine_frames.specs.Effects.{AreKnownLocals};
ghost use Rattle.machine_frames.specs.Locals.{Reads, CannotRead, Writes, CannotWrite, IsKnownIn};

use machine_values::{Local, Locals, Value};

/// What the local holds, unless it is unset or the second half of a long or double. The second half
/// must be there still.
pub fn read_local(locals: &Locals, index: u16) -> Option<Value>
    ensures read { MatchOption result (CannotRead locals.now index) (λ v. Reads locals.now index v) }
    ensures known { IfSome result (λ v. IsKnownIn locals.now v) }
{
    let items = locals.as_slice();
    let place = index as usize;
    if place >= items.len() {
        return None;
    }
    let held = match items[place] {
        Local::Holds(held) => held,
        _ => return None,
    };
    if !held.is_wide() {
        return Some(held);
    }
    if place + 1 >= items.len() {
        return None;
    }
    match items[place + 1] {
        Local::Second => Some(held),
        _ => None,
    }
}

/// Lets the local hold the value, and the next one the second half of a long or double. Says whether
/// there are enough locals.
#[tactic(auto, using(crate::proofs::Stored::writes_wide, crate::proofs::Stored::writes_narrow))]
pub fn write_local(locals: &mut Locals, index: u16, held: Value) -> bool
    ensures count { length locals.new ≡ length locals.old }
    ensures written { MatchBool result (Writes locals.old index held locals.new) (CannotWrite locals.old index held) }
    ensures within { (count : ℕ) → AreKnownLocals count locals.old → is_known count held ≡ true → AreKnownLocals count locals.new }
{
    let place = index as usize;
    if (locals.len() as usize) < place + held.width() {
        return false;
    }
    locals.set(index, Local::Holds(held));
    if held.is_wide() {
        locals.set(index + 1, Local::Second);
    }
    true
}
