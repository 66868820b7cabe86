//! Which method a call runs (JVMS 6, `invokespecial`, `invokevirtual` and `invokeinterface`).

ghost use Rattle.std.specs.Prelude.{◌≡◌, ◌<◌, ◌-◌, ◌||◌, not, ℕ, List, length, map, IfSome};
ghost use Rattle.std.specs.Option.{option_map, option_to_list};
ghost use Rattle.std.specs.Str.{bytes_eq};
ghost use Rattle.class_heads.specs.Graph.{walk};
ghost use Rattle.class_heads.specs.Hierarchy.{superclass_at, name_at};
ghost use Rattle.class_heads.specs.Numbers.{number_of, method_counts};
ghost use Rattle.class_heads.specs.Searches.{in_class, is_selectable, selectable_in};
ghost use Rattle.class_machine.specs.Classes as machine;
ghost use Rattle.class_machine.specs.Classes.{Method};
ghost use Rattle.class_machine.specs.Declarations.{is_super as has_super};
ghost use Rattle.machine_requests.specs.Telling.{AreDistinct};
ghost use Rattle.machine_steps.specs.Runs.{IsMethod};
ghost use Rattle.machine_invocations.specs.Methods.{members_in, classes_in, Finds, Sees};
ghost use Rattle.machine_invocations.specs.Selections.{member_named, type_named};

use crate::methods::{declared, is_constructor, is_private};
use aj_names::{ClassId, MethodId};
use class_world::{MethodHead, World};

/// The superclass of a class (JVMS 2.8.3).
pub fn superclass_of(world: &World, class: ClassId) -> Option<ClassId>
    requires { class.0 < length world.now.heads }
    ensures next { option_to_list (option_map (λ above. above.0) result) ≡ superclass_at world.now.heads class.0 }
    ensures within { IfSome result (λ above. above.0 < length world.now.heads) }
{
    match &world.head(class).super_class {
        None => None,
        Some(name) => world.class(name),
    }
}

// Whether a call may select the method.
fn is_selectable(method: &MethodHead) -> bool
    ensures { result ≡ is_selectable method.now }
{
    let flags = method.flags.0;
    flags & 0x0008 != 0x0008 && flags & 0x0002 != 0x0002
}

// The first method of the name and descriptor that the class declares, where it is neither static nor
// private.
fn selectable_in(world: &World, class: ClassId, name: &[u8], descriptor: &[u8]) -> Option<MethodId>
    requires { class.0 < length world.now.heads }
    ensures { option_map (λ method. method.0) result ≡ option_map (λ position. number_of (method_counts world.now.heads) (in_class class.0 position)) (selectable_in world.now.heads (member_named name.now descriptor.now) class.0) }
{
    let method = world.declared_method(class, name, descriptor)?;
    if is_selectable(declared(world, method).method) {
        Some(method)
    } else {
        None
    }
}

/// The first method of the name and descriptor from a class upward that is neither static nor private.
/// The class is the one whose members a type has.
pub fn find_selected(
    world: &World,
    class: Option<ClassId>,
    name: &[u8],
    descriptor: &[u8],
) -> Option<MethodId>
    requires { IfSome class (λ c. c.0 < length world.now.heads) }
    ensures { (type : List ℕ) → members_in world.now type ≡ option_map (λ c. c.0) class → Finds world.now result ((classes_in world.now).selected type (type_named name.now descriptor.now)) }
{
    let mut at = class?;
    'upward: for _turn in 0..world.classes() {
        if let Some(method) = selectable_in(world, at, name, descriptor) {
            return Some(method);
        }
        at = superclass_of(world, at)?;
    }
    None
}

/// The method that runs on an object, where this one was found: itself, if it is private, else the one
/// that is selected from the object's class upward. The class is the one whose members the object has.
pub fn select(world: &World, class: Option<ClassId>, method: MethodId) -> Option<MethodId>
    requires class { IfSome class (λ c. c.0 < length world.now.heads) }
    requires method { IsMethod world.now method.0 }
    ensures { (type : List ℕ) (m : Method) → members_in world.now type ≡ option_map (λ c. c.0) class → Sees world.now method.0 m → Finds world.now result (machine.select (classes_in world.now) type m) }
{
    if is_private(world, method) {
        return Some(method);
    }
    let name = &declared(world, method).method.name;
    find_selected(
        world,
        class,
        name.name.as_slice(),
        name.descriptor.as_slice(),
    )
}

fn are_same(name: &[u8], other: &[u8]) -> bool
    ensures { result ≡ bytes_eq name.now other.now }
{
    name == other
}

// Whether the class has the name.
fn is_named(world: &World, class: ClassId, name: &[u8]) -> bool
    requires { class.0 < length world.now.heads }
    ensures { result ≡ bytes_eq name.now (name_at world.now.heads class.0) }
{
    are_same(name, world.head(class).name.as_slice())
}

// Whether the class is one of the name, or a superclass upward is, among so many classes as there are
// above another.
fn is_upward(world: &World, from: ClassId, name: &[u8]) -> bool
    requires { from.0 < length world.now.heads }
    ensures { result ≡ machine.is_among (map (name_at world.now.heads) (walk (superclass_at world.now.heads) (length world.now.heads - 1) from.0)) name.now }
{
    let mut at = from;
    'upward: for _turn in 1..world.classes() {
        if is_named(world, at, name) {
            return true;
        }
        let Some(above) = superclass_of(world, at) else {
            return false;
        };
        at = above;
    }
    false
}

// Whether `invokespecial` in the class selects methods of superclasses (JVMS 4.1, ACC_SUPER).
fn is_super(world: &World, class: ClassId) -> bool
    requires { class.0 < length world.now.heads }
    ensures { AreDistinct world.now.heads → result ≡ (classes_in world.now).is_super (name_at world.now.heads class.0) }
{
    world.head(class).flags.0 & 0x0020 == 0x0020
}

// Whether `invokespecial` in code of the class calls the method itself.
fn is_itself(world: &World, current: ClassId, method: MethodId) -> bool
    requires current { current.0 < length world.now.heads }
    requires method { IsMethod world.now method.0 }
    ensures { (m : Method) → AreDistinct world.now.heads → Sees world.now method.0 m → result ≡ (machine.is_constructor m.name || (m.is_private || not ((classes_in world.now).is_super (name_at world.now.heads current.0)))) }
{
    if is_constructor(world, method) {
        return true;
    }
    if is_private(world, method) {
        return true;
    }
    !is_super(world, current)
}

/// The method that `invokespecial` in code of the current class runs, where this one was found: a
/// method of a superclass is selected from the direct superclass upward, where the class has ACC_SUPER.
pub fn select_special(world: &World, current: ClassId, method: MethodId) -> Option<MethodId>
    requires current { current.0 < length world.now.heads }
    requires method { IsMethod world.now method.0 }
    ensures { (m : Method) → AreDistinct world.now.heads → Sees world.now method.0 m → Finds world.now result (machine.select_special (classes_in world.now) (name_at world.now.heads current.0) m) }
{
    if is_itself(world, current, method) {
        return Some(method);
    }
    let Some(above) = superclass_of(world, current) else {
        return Some(method);
    };
    let place = declared(world, method);
    if !is_upward(world, above, place.head.name.as_slice()) {
        return Some(method);
    }
    let name = &place.method.name;
    find_selected(
        world,
        Some(above),
        name.name.as_slice(),
        name.descriptor.as_slice(),
    )
}
