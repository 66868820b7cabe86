//! Which static field an instruction names (JVMS 5.4.3.2).

ghost use Rattle.class_file.specs.Lookup.{reference_seen};
ghost use Rattle.machine_steps.specs.Programs.{IsRunnable};
ghost use Rattle.class_machine.specs.Declarations.{is_static_field};
ghost use Rattle.std.specs.Prelude.{◌≡◌};
ghost use Rattle.machine_statics.specs.StaticFields.{FindsStatic};

use aj_names::{ClassId, FieldId};
use class_file::Reference;
use class_heads::FieldHead;
use class_world::World;
use machine_invocations::class_of_members;

/// A static field, and where the class that declares it has it.
#[derive(Clone, Copy)]
pub(crate) struct StaticField {
    pub(crate) id: FieldId,
    pub(crate) class: ClassId,
    pub(crate) position: u32,
}

fn is_static(field: &FieldHead) -> bool
    ensures { result ≡ is_static_field field.now }
{
    field.flags.0 & 0x0008 == 0x0008
}

/// The static field that a search finds, by what an instruction names.
pub(crate) fn find_static(world: &World, reference: Reference<'_>) -> Option<StaticField>
    requires { IsRunnable world.now }
    ensures { FindsStatic world.now (reference_seen reference.entry) result }
{
    let from = class_of_members(world, reference.class)?;
    let id = world.find_field_named(from, reference.member.name, reference.member.descriptor)?;
    let (class, position) = world.field_at(id);
    let field = &world.head(class).fields.as_slice()[position as usize];
    if is_static(field) {
        Some(StaticField {
            id,
            class,
            position,
        })
    } else {
        None
    }
}
