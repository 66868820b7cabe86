//! The running frame, and the code of its method.

ghost use Rattle.std.specs.Prelude.{◌≡◌, ◌<◌, ℕ, true, length, List, ◌∷◌, IfSome};
ghost use Rattle.class_heads.specs.Hierarchy.{name_at};
ghost use Rattle.machine_steps.specs.Programs.{IsRunnable};
ghost use Rattle.machine_steps.specs.Runs.{IsMethod, IsFormed};
ghost use Rattle.machine_steps.specs.Running.{HasCode, HasRunningCode, TellsPlace};

use aj_names::{ClassId, MethodId};
use class_world::World;
use machine_code::{MethodCode, code_of};
use machine_values::MachineState;

/// The name of a class; empty where there is no such class.
pub fn class_name(world: &World, class: ClassId) -> &[u8]
    ensures { result.now ≡ name_at world.now.heads class.0 }
{
    if class.0 < world.classes() {
        world.head(class).name.as_slice()
    } else {
        &[]
    }
}

/// The code of a method of the world, or `None` where it has none.
pub fn code_of_method(world: &World, method: MethodId) -> Option<MethodCode<'_>>
    requires runnable { IsRunnable world.now }
    requires there { IsMethod world.now method.0 }
    ensures { HasCode world.now method.0 result }
{
    code_of(world, method)
}

/// The code of the running frame's method, or `None` where it has none and where no frame runs.
pub fn running_code<'a>(state: &MachineState, world: &'a World) -> Option<MethodCode<'a>>
    requires runnable { IsRunnable world.now }
    requires formed { IsFormed world.now state.now }
    ensures code { HasRunningCode world.now state.now result }
    ensures frames { IfSome result (λ code. 0 < length state.now.frames.items) }
{
    let frame = state.frames.last()?;
    code_of_method(world, frame.method)
}

/// Whether an instruction stands at the place of the running frame's method.
pub fn stands_at(state: &MachineState, world: &World, pc: u32) -> bool
    requires runnable { IsRunnable world.now }
    requires formed { IsFormed world.now state.now }
    ensures place { TellsPlace world.now state.now pc result }
    ensures frames { result ≡ true → 0 < length state.now.frames.items }
{
    match running_code(state, world) {
        Some(code) => code.operation_at(pc).is_some(),
        None => false,
    }
}
