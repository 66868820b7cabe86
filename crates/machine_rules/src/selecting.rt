//! The method that a call of `toString` or `getMessage` runs.

ghost use Rattle.std.specs.Prelude.{◌≡◌, ◌<◌, codes, length, Some, MatchOption};
ghost use Rattle.std.specs.List.{sum};
ghost use Rattle.class_heads.specs.Numbers.{method_counts, IsNumbered};
ghost use Rattle.class_heads.specs.Searches.{MemberPlace};
ghost use Rattle.class_machine.specs.Classes.{Method};
ghost use Rattle.class_world.specs.Found.{member_named};
ghost use Rattle.machine_rules.specs.declared.selecting.Selected.TheVariants.{Ruled, Bare};
ghost use Rattle.class_machine.specs.ClassFiles.{field_constant};
ghost use Rattle.class_machine.specs.Declarations.{method_at};
ghost use Rattle.class_machine.specs.LibraryCalls.{no_parameters};
ghost use Rattle.machine_requests.specs.Telling.{AreDistinct};
ghost use Rattle.machine_rules.specs.Library.{HasLibrary};
ghost use Rattle.machine_rules.specs.Selecting.{Declares, rule_in, IsSelected, named_type};

use crate::classes::{class_of_members, class_there};
use aj_names::{ClassId, MethodId};
use boot_library::{LibraryRule, library_rule};
use class_heads::ClassHead;
use class_world::World;

/// A method that was selected.
#[derive(Drop)]
pub(crate) enum Selected {
    /// One of the library, with its rule.
    Ruled(LibraryRule),
    /// Any other one.
    Bare(MethodId),
}

// What the method at a position of a class means, where the class is one of the library.
fn rule_in(head: &ClassHead, position: u32) -> Option<LibraryRule>
    ensures { result ≡ rule_in head.now position }
{
    match head.methods.get(position as usize) {
        Some(method) => library_rule(&head.name, &method.name),
        None => None,
    }
}

// What the method means, where it is one of the library; none of another one.
fn rule_of(world: &World, method: MethodId) -> Option<LibraryRule>
    requires { method.0 < sum (method_counts world.now.heads) }
    ensures { (place : MemberPlace) (m : Method) → IsNumbered (method_counts world.now.heads) method.0 place → method_at world.now.heads (length world.now.files) (field_constant world.now.files) place ≡ Some m → result ≡ m.rule }
{
    let (class, position) = world.method_at(method);
    match world.file(class) {
        Some(_) => None,
        None => rule_in(world.head(class), position),
    }
}

fn as_selected(rule: Option<LibraryRule>, method: MethodId) -> Selected
    ensures { MatchOption rule (result ≡ Bare method) (λ r. result ≡ Ruled r) }
{
    match rule {
        Some(rule) => Selected::Ruled(rule),
        None => Selected::Bare(method),
    }
}

// The method of the name and descriptor that runs on an object of the class, where the other class
// declares one that isn't private.
fn select_from(
    world: &World,
    class: &[u8],
    declarer: ClassId,
    name: &[u8],
    descriptor: &[u8],
) -> Option<Selected>
    requires { declarer.0 < length world.now.heads }
    ensures { AreDistinct world.now.heads → Declares world.now.heads declarer.0 (member_named name.now descriptor.now) → IsSelected world.now class.now (named_type name.now descriptor.now) result }
{
    let runtime = class_of_members(world, class)?;
    let declared = world.declared_method(declarer, name, descriptor)?;
    let method = world.select(runtime, declared)?;
    Some(as_selected(rule_of(world, method), method))
}

/// The `toString()` of an object of the class or array type.
pub(crate) fn selected_text(world: &World, class: &[u8]) -> Option<Selected>
    requires { HasLibrary world.now }
    ensures { AreDistinct world.now.heads → IsSelected world.now class.now (no_parameters (codes "toString")) result }
{
    let object = class_there(world, b"java/lang/Object");
    select_from(world, class, object, b"toString", b"()Ljava/lang/String;")
}

/// The `getMessage()` of an object of the class.
pub(crate) fn selected_message(world: &World, class: &[u8]) -> Option<Selected>
    requires { HasLibrary world.now }
    ensures { AreDistinct world.now.heads → IsSelected world.now class.now (no_parameters (codes "getMessage")) result }
{
    let throwable = class_there(world, b"java/lang/Throwable");
    select_from(
        world,
        class,
        throwable,
        b"getMessage",
        b"()Ljava/lang/String;",
    )
}
