//! The classes of the exceptions that the machine makes (JVMS 2.16.4).

ghost use Rattle.std.specs.Prelude.{◌≡◌, ◌<◌, length};
ghost use Rattle.class_heads.specs.Hierarchy.{name_at};
ghost use Rattle.class_machine.specs.Classes.{fault_class};
ghost use Rattle.machine_steps.specs.Programs.{IsRunnable};

use aj_names::ClassId;
use class_machine::kinds::Fault;
use class_world::World;

fn fault_name(fault: Fault) -> &'static [u8]
    ensures { result.now ≡ fault_class fault }
{
    match fault {
        Fault::NullPointer => b"java/lang/NullPointerException",
        Fault::Arithmetic => b"java/lang/ArithmeticException",
        Fault::NegativeArraySize => b"java/lang/NegativeArraySizeException",
        Fault::ArrayIndex => b"java/lang/ArrayIndexOutOfBoundsException",
        Fault::ArrayStore => b"java/lang/ArrayStoreException",
        Fault::ClassCast => b"java/lang/ClassCastException",
        Fault::IllegalMonitorState => b"java/lang/IllegalMonitorStateException",
        Fault::StringIndex => b"java/lang/StringIndexOutOfBoundsException",
    }
}

/// The class of the exception, which the library has.
pub(crate) fn fault_class(world: &World, fault: Fault) -> ClassId
    requires { IsRunnable world.now }
    ensures named { name_at world.now.heads result.0 ≡ fault_class fault }
    ensures within { result.0 < length world.now.heads }
{
    let Some(class) = world.class_named(fault_name(fault)) else {
        unreachable!()
    };
    class
}
