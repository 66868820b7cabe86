//! Whether the parameters of a method take arguments (JVMS 2.6.7, 4.3.3).

ghost use Rattle.std.specs.Prelude.{◌≡◌, map};
ghost use Rattle.class_machine.specs.Descriptors.{class_in, parameters_in};
ghost use Rattle.class_machine.specs.Natives as natives;
ghost use Rattle.class_machine.specs.Start as starts;
ghost use Rattle.machine_steps.specs.Programs.{IsRunnable};
ghost use Rattle.machine_invocations.specs.Methods.{classes_in};
ghost use Rattle.machine_start.specs.Arguments.{argument_of};
ghost use Rattle.machine_start.specs.Entries.{takes_texts};

use crate::descriptors::{behind_first, first_type, parameters, type_length};
use aj_names::Hierarchy;
use class_machine::kinds::Element;
use class_world::World;
use machine_fields::element_of;
use machine_natives::{class_in, is_int_of, string_class};
use machine_values::EntryArg;

fn is_long(element: Element) -> bool
    ensures { result ≡ natives.is_long element }
{
    matches!(element, Element::Long)
}

fn is_reference(element: Element) -> bool
    ensures { result ≡ natives.is_reference element }
{
    matches!(element, Element::Reference)
}

// Whether a String is a value of the type.
fn takes_text(world: &World, descriptor: &[u8]) -> bool
    requires { IsRunnable world.now }
    ensures { result ≡ natives.takes_text (classes_in world.now) (class_in descriptor.now) }
{
    let Some(class) = class_in(descriptor) else {
        return false;
    };
    let Some(high) = world.class_named(class) else {
        return false;
    };
    let low = string_class(world);
    world.is_subtype(&world.head(low).name, &world.head(high).name)
}

// Whether an array of Strings is given for the type: such an array, or one of objects, or any object.
fn takes_texts(descriptor: &[u8]) -> bool
    ensures { result ≡ takes_texts descriptor.now }
{
    descriptor == b"[Ljava/lang/String;".as_slice()
        || descriptor == b"[Ljava/lang/Object;".as_slice()
        || descriptor == b"Ljava/lang/Object;".as_slice()
}

// Whether a parameter of the type takes the argument.
fn takes(world: &World, descriptor: &[u8], arg: &EntryArg) -> bool
    requires { IsRunnable world.now }
    ensures { result ≡ starts.takes (classes_in world.now) descriptor.now (argument_of arg.now) }
{
    let element = element_of(descriptor);
    match arg {
        EntryArg::Int(n) => is_int_of(element, *n),
        EntryArg::Long(_) => is_long(element),
        EntryArg::Null => is_reference(element),
        EntryArg::Text(_) => takes_text(world, descriptor),
        EntryArg::Texts(_) => takes_texts(descriptor),
    }
}

/// Whether the parameters of a method of the descriptor take the arguments, one each.
pub(crate) fn takes_all(world: &World, descriptor: &[u8], args: &[EntryArg]) -> bool
    requires { IsRunnable world.now }
    ensures { result ≡ starts.takes_all (classes_in world.now) (parameters_in descriptor.now) (map argument_of args.now) }
{
    let mut rest = parameters(descriptor);
    for arg in args {
        let length = type_length(rest);
        if length == 0 {
            return false;
        }
        if !takes(world, first_type(rest), arg) {
            return false;
        }
        rest = behind_first(rest);
    }
    type_length(rest) == 0
}
