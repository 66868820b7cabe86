//! Monitors.

ghost use Rattle.std.specs.Prelude.{◌≡◌, ◌<◌, ◌≤◌, ◌+◌, max, true, length, take, slice_index, IfOk, OnOk, OnErr};
ghost use Rattle.class_machine.specs.Effect.{EnterMonitor, LeaveMonitor};
ghost use Rattle.machine_values.specs.States.{is_known_object};
ghost use Rattle.machine_values.specs.Things.{Things};
ghost use Rattle.machine_requests.specs.Shares.{Others};
ghost use Rattle.machine_requests.specs.Replies.{IsAnswer, object as named};
ghost use Rattle.machine_requests.specs.Monitors.{HasSameCounts, with_monitors, StandsStill};

use crate::reply::Reply;
use class_machine::kinds::Fault;
use machine_values::Ref;
use sqlite_items::Items;
use std::alloc::AllocError;

// How often the object's monitor was entered and not left.
fn count_of(monitors: &Items<u64>, at: Ref) -> u64
    ensures { result ≡ slice_index monitors.now at.0 }
{
    match monitors.get(at.0 as usize) {
        Some(count) => *count,
        None => 0,
    }
}

// Counts of 0 follow, up to the object's, as far as there is memory.
fn add_counts(monitors: &mut Items<u64>, at: Ref) -> Result<(), AllocError>
    ensures reached { OnOk result (at.0 < length monitors.new) }
    ensures counts { HasSameCounts monitors.old monitors.new }
    ensures within { length monitors.new ≤ max (length monitors.old) (at.0 + 1) }
    ensures begin { take (length monitors.old) monitors.new ≡ monitors.old }
{
    for _missing in monitors.len()..at.0 as usize + 1 {
        monitors.push(0)?;
    }
    Ok(())
}

// So many counts are left.
fn cut(monitors: &mut Items<u64>, count: usize)
    ensures { monitors.new ≡ take count monitors.old }
{
    for _extra in count..monitors.len() {
        let _count = monitors.pop();
    }
}

// Counts of 0 follow, up to the object's. A call that fails changes nothing.
fn reach(monitors: &mut Items<u64>, at: Ref) -> Result<(), AllocError>
    ensures reached { OnOk result (at.0 < length monitors.new) }
    ensures counts { HasSameCounts monitors.old monitors.new }
    ensures within { length monitors.new ≤ max (length monitors.old) (at.0 + 1) }
    ensures err { OnErr result (monitors.new ≡ monitors.old) }
{
    let count = monitors.len();
    match add_counts(monitors, at) {
        Ok(()) => Ok(()),
        Err(failed) => {
            cut(monitors, count);
            Err(failed)
        }
    }
}

/// Enters the monitor of the object (JVMS 6, `monitorenter`). A call that fails leaves the counts as they
/// were.
pub fn enter_monitor(monitors: &mut Items<u64>, object: Option<Ref>) -> Result<Reply, AllocError>
    ensures ok { IfOk result (λ reply. (things : Things) (others : Others) → others.monitors ≡ monitors.old → is_known_object (length things.names) object ≡ true → IsAnswer things others (λ s names. EnterMonitor (named s names object)) things (with_monitors others monitors.new) reply) }
    ensures err { OnErr result ((things : Things) (others : Others) → others.monitors ≡ monitors.old → is_known_object (length things.names) object ≡ true → StandsStill things others things (with_monitors others monitors.new)) }
    ensures same { OnErr result (monitors.new ≡ monitors.old) }
{
    let Some(at) = object else {
        return Ok(Reply::Faults(Fault::NullPointer));
    };
    let count = count_of(monitors, at);
    if count == u64::MAX {
        return Err(AllocError);
    }
    reach(monitors, at)?;
    monitors.set(at.0 as usize, count + 1);
    Ok(Reply::Done)
}

/// Leaves the monitor of the object once (JVMS 6, `monitorexit`).
pub fn leave_monitor(monitors: &mut Items<u64>, object: Option<Ref>) -> Reply
    ensures { (things : Things) (others : Others) → others.monitors ≡ monitors.old → is_known_object (length things.names) object ≡ true → IsAnswer things others (λ s names. LeaveMonitor (named s names object)) things (with_monitors others monitors.new) result }
{
    let Some(at) = object else {
        return Reply::Faults(Fault::NullPointer);
    };
    let count = count_of(monitors, at);
    if count == 0 {
        return Reply::Faults(Fault::IllegalMonitorState);
    }
    monitors.set(at.0 as usize, count - 1);
    Reply::Done
}
