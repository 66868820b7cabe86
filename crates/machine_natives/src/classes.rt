//! Classes that natives speak of.

ghost use Rattle.std.specs.Prelude.{◌≡◌, ◌<◌, length, IfOk};
ghost use Rattle.class_heads.specs.Hierarchy.{name_at, is_subtype};
ghost use Rattle.class_machine.specs.Natives.{takes_text};
ghost use Rattle.class_machine.specs.Descriptors.{class_in};
ghost use Rattle.class_machine.specs.Values.{string_class, throwable_class};
ghost use Rattle.machine_steps.specs.Programs.{IsRunnable};
ghost use Rattle.machine_invocations.specs.Methods.{classes_in};

use crate::descriptors::class_in;
use aj_names::{ClassId, Hierarchy, InternalName};
use class_world::World;
use std::alloc::{AllocError, Global};

/// The class of Strings, which the library has.
pub fn string_class(world: &World) -> ClassId
    requires { IsRunnable world.now }
    ensures named { name_at world.now.heads result.0 ≡ string_class }
    ensures within { result.0 < length world.now.heads }
{
    let Some(class) = world.class_named(b"java/lang/String") else {
        unreachable!()
    };
    class
}

/// Whether a String is a value of the type of the descriptor.
pub(crate) fn takes_text(
    alloc: Global,
    world: &World,
    descriptor: &[u8],
) -> Result<bool, AllocError>
    ensures { IfOk result (λ takes. takes ≡ takes_text (classes_in world.now) (class_in descriptor.now)) }
{
    let Some(class) = class_in(descriptor) else {
        return Ok(false);
    };
    let string = InternalName::from_slice(alloc, b"java/lang/String")?;
    let class = InternalName::from_slice(alloc, class)?;
    Ok(world.is_subtype(&string, &class))
}

/// Whether the class is `Throwable` or below it.
pub(crate) fn is_throwable(
    alloc: Global,
    world: &World,
    class: &InternalName,
) -> Result<bool, AllocError>
    ensures { IfOk result (λ is. is ≡ is_subtype world.now.heads class.now throwable_class) }
{
    let throwable = InternalName::from_slice(alloc, b"java/lang/Throwable")?;
    Ok(world.is_subtype(class, &throwable))
}
