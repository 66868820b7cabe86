//! Frames that are left (JVMS 3.6.5, 3.11.11).

ghost use Rattle.std.specs.Prelude.{◌≡◌, ◌++◌, length};
ghost use Rattle.std.specs.Option.{option_to_list};
ghost use Rattle.machine_steps.specs.Leaving.{Drops};

use machine_steps::leave;
use machine_values::{Frame, MachineState};

/// Takes the running frame off, if there is one, and leaves its monitor.
pub fn drop_frame(state: &mut MachineState) -> Option<Frame>
    ensures dropped { Drops state.old state.new (length state.new.frames.items) }
    ensures frames { state.old.frames.items ≡ state.new.frames.items ++ option_to_list result }
{
    let Some(frame) = state.frames.pop() else {
        return None;
    };
    leave(&mut state.monitors, frame.monitor);
    Some(frame)
}
