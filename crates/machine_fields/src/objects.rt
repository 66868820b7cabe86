//! The classes of objects.

ghost use Rattle.std.specs.Prelude.{◌≡◌, ◌<◌, true, length, Some, IfSome};
ghost use Rattle.std.specs.Option.{option_copied, option_map};
ghost use Rattle.class_heads.specs.Hierarchy as rule;
ghost use Rattle.class_heads.specs.Hierarchy.{name_at, place_of};
ghost use Rattle.class_machine.specs.Values.{class_of};
ghost use Rattle.machine_values.specs.Standing.{name_of};
ghost use Rattle.machine_values.specs.States.{is_known, is_known_object};
ghost use Rattle.machine_requests.specs.Arrays.{array_type, Holds};
ghost use Rattle.machine_requests.specs.Objects.{IsBelow};
ghost use Rattle.machine_requests.specs.Telling.{AreDistinct, AreFit};
ghost use Rattle.machine_fields.specs.Settings.{world_setting};
ghost use Rattle.machine_fields.specs.Types.{type_seen, element_type, if_known};

use crate::types::{BaseView, TypeView, base_seen, is_below, type_named};
use aj_names::{ClassId, FieldType};
use class_world::World;
use machine_values::{Content, Heap, Maker, Name, Ref, Value};

pub(crate) fn name_of(world: &World, class: ClassId) -> &[u8]
    ensures { result.now ≡ name_at world.now.heads class.0 }
{
    if class.0 < world.classes() {
        world.head(class).name.as_slice()
    } else {
        b""
    }
}

// The class or array type of the object.
fn type_of<'a>(world: &'a World, heap: &'a Heap, at: Ref) -> TypeView<'a>
    requires { at.0 < length heap.now.names }
    ensures { AreDistinct world.now.heads → AreFit (length world.now.heads) heap.now.names → type_seen result ≡ rule.type_named (class_of (name_of world.now.heads heap.now.names at)) }
{
    match heap.name(at) {
        Name::Made(maker, _number) => match maker {
            Maker::Class(class) => TypeView {
                dims: 0,
                base: BaseView::Class(name_of(world, *class)),
            },
            Maker::Array(array) => TypeView {
                dims: array.dims as usize,
                base: base_seen(&array.base),
            },
        },
        Name::Literal(_) => TypeView {
            dims: 0,
            base: BaseView::Class(b"java/lang/String"),
        },
        Name::ClassObject(_) => TypeView {
            dims: 0,
            base: BaseView::Class(b"java/lang/Class"),
        },
    }
}

/// Whether the object is one of the class or array type that is named as Class entries name it (JVMS
/// 2.6.7, 4.4.1).
pub fn is_object_below(world: &World, heap: &Heap, at: Ref, class: &[u8]) -> bool
    requires { at.0 < length heap.now.names }
    ensures { AreDistinct world.now.heads → AreFit (length world.now.heads) heap.now.names → IsBelow heap.now (Some at) class.now result (world_setting world.now) }
{
    is_below(world, type_of(world, heap, at), type_named(class))
}

// The type of the array, where there is an array.
fn array_type(heap: &Heap, at: Ref) -> Option<&FieldType>
    requires { at.0 < length heap.now.names }
    ensures { option_copied result ≡ array_type heap.now at.0 }
{
    match (heap.name(at), heap.content(at)) {
        (Name::Made(Maker::Array(class), _), Content::Values(_)) => Some(class),
        _ => None,
    }
}

// The type of the elements of an array of the type.
fn element_of(array: &FieldType) -> TypeView<'_>
    ensures { type_seen result ≡ element_type array.now }
{
    TypeView {
        dims: (array.dims as usize).saturating_sub(1),
        base: base_seen(&array.base),
    }
}

/// Whether the array may hold the value (JVMS 6, `aastore`).
pub fn may_hold(world: &World, heap: &Heap, array: Option<Ref>, value: Value) -> bool
    requires array { is_known_object (length heap.now.names) array ≡ true }
    requires value { is_known (length heap.now.names) value ≡ true }
    ensures { AreDistinct world.now.heads → AreFit (length world.now.heads) heap.now.names → Holds heap.now array value result (world_setting world.now) }
{
    let Some(at) = array else {
        return true;
    };
    let Value::Reference(held) = value else {
        return true;
    };
    match array_type(heap, at) {
        Some(class) => is_below(world, type_of(world, heap, held), element_of(class)),
        None => true,
    }
}

// The class, where it is one of the world.
fn if_known(world: &World, class: ClassId) -> Option<ClassId>
    ensures known { option_map (λ class. class.0) result ≡ if_known (length world.now.heads) class.0 }
    ensures within { IfSome result (λ class. class.0 < length world.now.heads) }
{
    if class.0 < world.classes() {
        Some(class)
    } else {
        None
    }
}

/// The class of the object: of a literal it is String, and of what stands for a class it is Class. None
/// of an array, and where the world lacks the class.
pub fn class_at(world: &World, heap: &Heap, at: Ref) -> Option<ClassId>
    requires { at.0 < length heap.now.names }
    ensures place { AreDistinct world.now.heads → AreFit (length world.now.heads) heap.now.names → option_map (λ class. class.0) result ≡ place_of world.now.heads (class_of (name_of world.now.heads heap.now.names at)) }
    ensures within { IfSome result (λ class. class.0 < length world.now.heads) }
{
    match heap.name(at) {
        Name::Made(maker, _number) => match maker {
            Maker::Class(class) => if_known(world, *class),
            Maker::Array(_array) => None,
        },
        Name::Literal(_) => world.class_named(b"java/lang/String"),
        Name::ClassObject(_) => world.class_named(b"java/lang/Class"),
    }
}
