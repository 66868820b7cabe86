//! Whether a trigger of a class initialises nothing (JVMS 2.17.4).

ghost use Rattle.std.specs.Prelude.{◌≡◌, ◌<◌, true, false, length, slice_index_or};
ghost use Rattle.machine_steps.specs.Programs.{IsRunnable};
ghost use Rattle.machine_invokes.specs.Beginning.{HaveBegun};

use aj_names::ClassId;
use class_world::World;
use machine_invocations::superclass_of;

fn has_begun(begun: &[bool], class: ClassId) -> bool
    ensures { result ≡ slice_index_or begun.now class.0 false }
{
    match begun.get(class.0 as usize) {
        Some(has) => *has,
        None => false,
    }
}

/// Whether the class and its superclasses have begun, so that a trigger of it changes nothing.
pub fn have_begun(world: &World, begun: &[bool], class: ClassId) -> bool
    requires runnable { IsRunnable world.now }
    requires class { class.0 < length world.now.heads }
    ensures { result ≡ true → HaveBegun world.now begun.now class.0 }
{
    let mut at = class;
    'upward: for _turn in 0..world.classes() {
        if !has_begun(begun, at) {
            return false;
        }
        match superclass_of(world, at) {
            Some(above) => at = above,
            None => return true,
        }
    }
    true
}
