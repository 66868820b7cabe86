//! The method that the words of an entry name.

ghost use Rattle.std.specs.Prelude.{◌≡◌, ◌<◌, ◌&&◌, Some, length, map, slice_get, IfSome};
ghost use Rattle.std.specs.Str.{bytes_eq};
ghost use Rattle.class_heads.specs.Searches.{is_static, same_name};
ghost use Rattle.class_heads.specs.declared.types.ClassHead.{ClassHead as HeadOf};
ghost use Rattle.class_world.specs.Found.{member_named};
ghost use Rattle.class_machine.specs.Descriptors.{parameters_in};
ghost use Rattle.class_machine.specs.Start as starts;
ghost use Rattle.machine_fields.specs.Settings.{is_at};
ghost use Rattle.machine_steps.specs.Programs.{IsRunnable};
ghost use Rattle.machine_steps.specs.Runs.{IsMethod};
ghost use Rattle.machine_invocations.specs.Methods.{classes_in, Finds};
ghost use Rattle.machine_start.specs.Arguments.{argument_of};
ghost use Rattle.machine_start.specs.Entries.{first_position, entry_in, entry_of};

use crate::taking::takes_all;
use aj_names::{ClassId, MemberName, MethodId};
use class_world::{MethodHead, World};
use machine_values::EntryArg;

// Whether the method is a static one of the name that takes the arguments.
fn is_entry(world: &World, method: &MethodHead, name: &[u8], args: &[EntryArg]) -> bool
    requires { IsRunnable world.now }
    ensures { result ≡ (is_static method.now && (bytes_eq method.now.name.name name.now && starts.takes_all (classes_in world.now) (parameters_in method.now.name.descriptor) (map argument_of args.now))) }
{
    method.flags.0 & 0x0008 == 0x0008
        && method.name.name.as_slice() == name
        && takes_all(world, method.name.descriptor.as_slice(), args)
}

fn is_named(member: &MemberName, name: &[u8], descriptor: &[u8]) -> bool
    ensures { result ≡ same_name member.now (member_named name.now descriptor.now) }
{
    member.name.as_slice() == name && member.descriptor.as_slice() == descriptor
}

// The position of the first method of the name and descriptor.
fn first_position(methods: &[MethodHead], name: &[u8], descriptor: &[u8]) -> Option<usize>
    ensures { result ≡ first_position (member_named name.now descriptor.now) methods.now }
{
    methods
        .iter()
        .position(|method| is_named(&method.name, name, descriptor))
}

// Whether the method at the position is the first of its name and descriptor.
fn is_first(methods: &[MethodHead], position: usize, method: &MethodHead) -> bool
    ensures { result ≡ is_at (first_position method.now.name methods.now) position }
{
    let name = method.name.name.as_slice();
    let descriptor = method.name.descriptor.as_slice();
    first_position(methods, name, descriptor) == Some(position)
}

// Whether the method at the position is the entry, where none before it is.
fn is_it(
    world: &World,
    methods: &[MethodHead],
    position: usize,
    method: &MethodHead,
    name: &[u8],
    args: &[EntryArg],
) -> bool
    requires { IsRunnable world.now }
    ensures { result ≡ ((is_static method.now && (bytes_eq method.now.name.name name.now && starts.takes_all (classes_in world.now) (parameters_in method.now.name.descriptor) (map argument_of args.now))) && is_at (first_position method.now.name methods.now) position) }
{
    is_entry(world, method, name, args) && is_first(methods, position, method)
}

// The entry among the methods of the class.
fn find_in(world: &World, class: ClassId, name: &[u8], args: &[EntryArg]) -> Option<MethodId>
    requires runnable { IsRunnable world.now }
    requires class { class.0 < length world.now.heads }
    ensures { (c : HeadOf) → slice_get world.now.heads class.0 ≡ Some c → Finds world.now result (entry_in world.now name.now (map argument_of args.now) class.0 c) }
{
    let methods = world.head(class).methods.as_slice();
    for (position, method) in methods.iter().enumerate() {
        if is_it(world, methods, position, method, name, args) {
            let member = &method.name;
            return world.declared_method(
                class,
                member.name.as_slice(),
                member.descriptor.as_slice(),
            );
        }
    }
    None
}

/// The entry that the words name: of the methods of the class, which was given as a file, the first
/// static one of the name whose parameters take the arguments (JVMS 2.17.1). A class of the library has
/// none. It takes no memory.
pub fn find_entry(world: &World, class: &[u8], method: &[u8], args: &[EntryArg]) -> Option<MethodId>
    requires { IsRunnable world.now }
    ensures found { Finds world.now result (entry_of world.now class.now method.now (map argument_of args.now)) }
    ensures method { IfSome result (λ entry. IsMethod world.now entry.0) }
{
    let Some(place) = world.class_named(class) else {
        return None;
    };
    match world.file(place) {
        Some(_) => find_in(world, place, method, args),
        None => None,
    }
}
