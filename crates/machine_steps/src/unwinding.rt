//! Where an exception goes (JVMS 3.10).

ghost use Rattle.std.specs.Prelude.{◌≡◌, ◌<◌, ◌≤◌, ℕ, length};
ghost use Rattle.std.specs.Option.{option_map, option_copied};
ghost use Rattle.class_heads.specs.Hierarchy.{is_interface};
ghost use Rattle.machine_steps.specs.Programs.{IsRunnable};
ghost use Rattle.machine_steps.specs.Runs.{IsMethod, IsFormed};
ghost use Rattle.machine_steps.specs.Unwinding.{TellsCatch, TellsHandler, initialised};
ghost use Rattle.machine_steps.specs.Ways.{IsWay};

use crate::running::code_of_method;
use aj_names::{ClassId, Hierarchy};
use class_heads::ClassHead;
use class_world::World;
use machine_values::{Frame, MachineState, Purpose};

/// Which way an exception goes.
#[derive(Clone, Copy)]
pub(crate) enum Way {
    /// To this place of the frame of that number; the oldest frame is number 0.
    Caught(usize, u32),
    /// Out of the initialiser of this class.
    Fails(ClassId),
    /// Out of the last frame.
    Leaves,
}

fn is_interface(head: &ClassHead) -> bool
    ensures { result ≡ is_interface head.now }
{
    head.flags.0 & 0x0200 == 0x0200
}

// Whether an entry of an exception table with this class, or for all, takes exceptions of the other.
// A class that isn't there and an interface catch nothing.
fn catches(world: &World, class: ClassId, catch: Option<&[u8]>) -> bool
    requires { class.0 < length world.now.heads }
    ensures { TellsCatch world.now class.0 (option_copied catch.entry) result }
{
    let Some(name) = catch else {
        return true;
    };
    let Some(high) = world.class_named(name) else {
        return false;
    };
    let caught = world.head(high);
    !is_interface(caught) && world.is_subtype(&world.head(class).name, &caught.name)
}

// The place where the frame takes exceptions of the class.
fn handler_in(world: &World, frame: &Frame, class: ClassId) -> Option<u32>
    requires runnable { IsRunnable world.now }
    requires method { IsMethod world.now frame.now.method.0 }
    requires class { class.0 < length world.now.heads }
    ensures { TellsHandler world.now class.0 frame.now result }
{
    let code = code_of_method(world, frame.method)?;
    let mut from = 0;
    'entries: while let Some(handler) = code.handler_from(frame.pc, from) {
        if catches(world, class, handler.catch) {
            return Some(handler.pc);
        }
        from = handler.next;
    }
    None
}

// The class that the frame initialises.
fn initialised(frame: &Frame) -> Option<ClassId>
    ensures { option_map (λ class. class.0) result ≡ initialised frame.now.purpose }
{
    match frame.purpose {
        Purpose::Initialises(class) => Some(class),
        _ => None,
    }
}

/// Which way an exception of the class goes out of the frames. Nothing is changed.
pub(crate) fn way_of(state: &MachineState, world: &World, class: ClassId) -> Way
    requires runnable { IsRunnable world.now }
    requires formed { IsFormed world.now state.now }
    requires class { class.0 < length world.now.heads }
    ensures { IsWay world.now class.0 state.now.frames.items result }
{
    let mut left = state.frames.len();
    'down: while left > 0 {
        left -= 1;
        let frame = &state.frames[left];
        if let Some(pc) = handler_in(world, frame, class) {
            return Way::Caught(left, pc);
        }
        if let Some(failed) = initialised(frame) {
            return Way::Fails(failed);
        }
    }
    Way::Leaves
}
