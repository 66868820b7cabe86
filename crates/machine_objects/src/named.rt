//! What searches of fields and classes find (JVMS 5.4.3.1, 5.4.3.2).

ghost use Rattle.std.specs.Prelude.{◌≡◌, ◌<◌, length, IfSome, IsNone};
ghost use Rattle.class_file.specs.Lookup.{reference_seen};
ghost use Rattle.class_machine.specs.Declarations.{is_static_field};
ghost use Rattle.machine_steps.specs.Programs.{IsRunnable};
ghost use Rattle.machine_invocations.specs.Methods.{classes_in};
ghost use Rattle.machine_objects.specs.Fields.{IsInstanceField, LacksInstanceField};

use aj_names::ClassId;
use class_file::Reference;
use class_heads::FieldHead;
use class_world::World;
use machine_invocations::class_of_members;

/// A field by the class that declares it, and its position among the fields of the class.
#[derive(Clone, Copy)]
pub(crate) struct Declared {
    pub(crate) class: ClassId,
    pub(crate) position: u32,
}

fn is_static(field: &FieldHead) -> bool
    ensures { result ≡ is_static_field field.now }
{
    field.flags.0 & 0x0008 == 0x0008
}

/// The field of objects that a search finds, by what an instruction names. None, where there is none,
/// and where it is static.
pub(crate) fn instance_field(world: &World, field: Reference<'_>) -> Option<Declared>
    ensures found { IfSome result (λ found. IsInstanceField world.now (reference_seen field.entry) found.class.0 found.position) }
    ensures none { IsNone result → LacksInstanceField world.now (reference_seen field.entry) }
    ensures within { IfSome result (λ found. found.class.0 < length world.now.heads) }
{
    let Some(class) = class_of_members(world, field.class) else {
        return None;
    };
    let Some(number) = world.find_field_named(class, field.member.name, field.member.descriptor)
    else {
        return None;
    };
    let (class, position) = world.field_at(number);
    let Some(found) = world.head(class).fields.get(position as usize) else {
        return None;
    };
    if is_static(found) {
        None
    } else {
        Some(Declared { class, position })
    }
}

/// Whether there is such a class or array type, which is named as Class entries name it (JVMS 4.4.1).
pub(crate) fn is_known_class(world: &World, class: &[u8]) -> bool
    requires { IsRunnable world.now }
    ensures { result ≡ (classes_in world.now).knows class.now }
{
    class_of_members(world, class).is_some()
}
