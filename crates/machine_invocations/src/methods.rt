//! What a method is, by its number.

ghost use Rattle.std.specs.Prelude.{◌≡◌, ◌<◌, codes, length};
ghost use Rattle.std.specs.Str.{bytes_eq};
ghost use Rattle.class_heads.specs.Hierarchy.{name_at};
ghost use Rattle.class_machine.specs.Classes as machine;
ghost use Rattle.class_machine.specs.Classes.{Method};
ghost use Rattle.machine_steps.specs.Runs.{IsMethod};
ghost use Rattle.machine_invocations.specs.Methods.{Sees, StandsIn, declared_as};

use aj_names::{ClassId, MethodId};
use boot_library::{LibraryRule, library_rule};
use class_heads::ClassHead;
use class_world::{MethodHead, World};

/// Where a method stands.
#[derive(Clone, Copy)]
pub struct Declaration<'a> {
    /// The class that declares it.
    pub class: ClassId,
    pub head: &'a ClassHead,
    /// What the class declares of it.
    pub method: &'a MethodHead,
}

/// Where a method stands.
pub fn declared(world: &World, method: MethodId) -> Declaration<'_>
    requires { IsMethod world.now method.0 }
    ensures within { result.class.0 < length world.now.heads }
    ensures stands { StandsIn world.now method.0 result.class.0 result.head.now result.method.now }
    ensures seen { (m : Method) → Sees world.now method.0 m → m ≡ declared_as world.now result.class.0 result.head.now result.method.now }
{
    let (class, position) = world.method_at(method);
    let head = world.head(class);
    Declaration {
        class,
        head,
        method: &head.methods.as_slice()[position as usize],
    }
}

/// The class that declares the method.
pub fn declaring_class(world: &World, method: MethodId) -> ClassId
    requires { IsMethod world.now method.0 }
    ensures within { result.0 < length world.now.heads }
    ensures class { (m : Method) → Sees world.now method.0 m → name_at world.now.heads result.0 ≡ m.name.class }
{
    declared(world, method).class
}

/// Whether it is a method of the class and not of an object (JVMS 4.6).
pub fn is_static(world: &World, method: MethodId) -> bool
    requires { IsMethod world.now method.0 }
    ensures { (m : Method) → Sees world.now method.0 m → result ≡ m.is_static }
{
    declared(world, method).method.flags.0 & 0x0008 == 0x0008
}

/// Whether it is private (JVMS 4.6).
pub fn is_private(world: &World, method: MethodId) -> bool
    requires { IsMethod world.now method.0 }
    ensures { (m : Method) → Sees world.now method.0 m → result ≡ m.is_private }
{
    declared(world, method).method.flags.0 & 0x0002 == 0x0002
}

/// Whether a call of it enters a monitor (JVMS 4.6).
pub fn is_synchronized(world: &World, method: MethodId) -> bool
    requires { IsMethod world.now method.0 }
    ensures { (m : Method) → Sees world.now method.0 m → result ≡ m.is_synchronized }
{
    declared(world, method).method.flags.0 & 0x0020 == 0x0020
}

/// Whether it is native (JVMS 4.6).
pub fn is_native(world: &World, method: MethodId) -> bool
    requires { IsMethod world.now method.0 }
    ensures { (m : Method) → Sees world.now method.0 m → result ≡ m.is_native }
{
    declared(world, method).method.flags.0 & 0x0100 == 0x0100
}

fn names_constructors(name: &[u8]) -> bool
    ensures { result ≡ bytes_eq name.now (codes "<init>") }
{
    name == b"<init>".as_slice()
}

/// Whether it is a constructor (JVMS 3.9).
pub fn is_constructor(world: &World, method: MethodId) -> bool
    requires { IsMethod world.now method.0 }
    ensures { (m : Method) → Sees world.now method.0 m → result ≡ machine.is_constructor m.name }
{
    names_constructors(declared(world, method).method.name.name.as_slice())
}

/// What a method of the library means; none of a native one, and of a class that was given as a file.
pub fn rule_of(world: &World, method: MethodId) -> Option<LibraryRule>
    requires { IsMethod world.now method.0 }
    ensures { (m : Method) → Sees world.now method.0 m → result ≡ m.rule }
{
    let place = declared(world, method);
    match world.file(place.class) {
        Some(_) => None,
        None => library_rule(&place.head.name, &place.method.name),
    }
}
