//! Frames that are left.

ghost use Rattle.std.specs.Prelude.{◌≡◌, ◌≤◌, [], length};
ghost use Rattle.machine_steps.specs.Leaving.{LeavesMonitor, Drops};

use machine_requests::leave_monitor;
use machine_values::{MachineState, Operands, Ref};
use sqlite_items::Items;

/// Leaves the monitor of a frame that is left, where it has one: that of a synchronized method (JVMS
/// 3.11.11). Where it wasn't entered nothing happens.
pub fn leave(monitors: &mut Items<u64>, monitor: Option<Ref>)
    ensures { LeavesMonitor monitors.old monitor monitors.new }
{
    let _reply = leave_monitor(monitors, monitor);
}

/// Leaves frames, the running one first, until so many are left.
pub(crate) fn leave_above(state: &mut MachineState, count: usize)
    requires { count ≤ length state.old.frames.items }
    ensures { Drops state.old state.new count }
{
    'leaving: while state.frames.len() > count {
        let Some(frame) = state.frames.pop() else {
            return;
        };
        leave(&mut state.monitors, frame.monitor);
    }
}

/// Takes all operands away.
pub(crate) fn empty(operands: &mut Operands)
    ensures room { operands.new.room ≡ operands.old.room }
    ensures values { operands.new.values ≡ [] }
{
    'emptying: while let Some(_) = operands.pop() {}
}
