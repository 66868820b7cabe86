//! The instruction at the running frame's place.

ghost use Rattle.std.specs.Prelude.{None, MatchOption};
ghost use Rattle.machine_steps.specs.Programs.{IsRunnable};
ghost use Rattle.machine_steps.specs.Runs.{IsFormed};
ghost use Rattle.machine_parts.specs.Lines.{HasLine, IsAt};

use class_file::PoolEntry;
use class_world::World;
use machine_code::Operation;
use machine_steps::running_code;
use machine_values::MachineState;

/// An instruction, and the constant pool that it speaks of.
#[derive(Clone, Copy)]
pub struct Running<'a> {
    pub pool: &'a [PoolEntry],
    pub operation: Operation,
}

/// The instruction at the running frame's place, or `None` where none begins there and where no frame
/// runs (JVMS 3.6).
pub fn running_operation<'a>(state: &MachineState, world: &'a World) -> Option<Running<'a>>
    requires runnable { IsRunnable world.now }
    requires formed { IsFormed world.now state.now }
    ensures { MatchOption result (HasLine world.now state.now None) (λ x. IsAt world.now state.now x.pool.now x.operation) }
{
    let Some(code) = running_code(state, world) else {
        return None;
    };
    let top = state.frames.len() - 1;
    let Some(operation) = code.operation_at(state.frames[top].pc) else {
        return None;
    };
    Some(Running {
        pool: code.pool,
        operation,
    })
}
