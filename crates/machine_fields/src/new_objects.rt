//! New objects of the classes of a world.

ghost use Rattle.std.specs.Prelude.{◌≡◌, ◌<◌, ◌++◌, ◌∷◌, [], length, IfOk, OnOk, OnErr};
ghost use Rattle.std.specs.List.{flat_map};
ghost use Rattle.class_heads.specs.Hierarchy.{superclasses};
ghost use Rattle.class_machine.specs.Descriptors as machine;
ghost use Rattle.class_machine.specs.Declarations.{hidden_fields};
ghost use Rattle.class_machine.specs.World.{is_text_class};
ghost use Rattle.machine_requests.specs.Arrays.{type_element};
ghost use Rattle.machine_requests.specs.Replies.{IsLonger};
ghost use Rattle.machine_fields.specs.Positions.{in_head, in_place};
ghost use Rattle.machine_fields.specs.NewObjects.{held_by, asked_by, own_elements, MakesOf, KeepsFilled};

use crate::objects::name_of;
use crate::positions::{boxed_in, is_static, is_throwable, spelling, superclass_of};
use aj_names::{Base, ClassId, FieldType};
use class_heads::{ClassHead, FieldHead};
use class_machine::kinds::Element;
use class_world::World;
use machine_requests::make;
use machine_values::{Heap, Ref};
use std::alloc::{AllocError, Global};

/// What a field of the descriptor holds.
pub fn element_of(descriptor: &[u8]) -> Element
    ensures { result ≡ machine.element_of descriptor.now }
{
    match descriptor {
        [b'Z', ..] => Element::Boolean,
        [b'B', ..] => Element::Byte,
        [b'C', ..] => Element::Char,
        [b'S', ..] => Element::Short,
        [b'I', ..] => Element::Int,
        [b'J', ..] => Element::Long,
        [b'F', ..] => Element::Float,
        [b'D', ..] => Element::Double,
        _ => Element::Reference,
    }
}

// A type whose fields hold such values; of references it doesn't matter which.
fn type_of(element: Element) -> FieldType
    ensures { type_element result ≡ element }
{
    match element {
        Element::Boolean => FieldType {
            base: Base::Boolean,
            dims: 0,
        },
        Element::Byte => FieldType {
            base: Base::Byte,
            dims: 0,
        },
        Element::Char => FieldType {
            base: Base::Char,
            dims: 0,
        },
        Element::Short => FieldType {
            base: Base::Short,
            dims: 0,
        },
        Element::Int => FieldType {
            base: Base::Int,
            dims: 0,
        },
        Element::Long => FieldType {
            base: Base::Long,
            dims: 0,
        },
        Element::Float => FieldType {
            base: Base::Float,
            dims: 0,
        },
        Element::Double => FieldType {
            base: Base::Double,
            dims: 0,
        },
        Element::Reference => FieldType {
            base: Base::Int,
            dims: 1,
        },
    }
}

// One more field, which holds such values.
fn push(types: &mut Vec<FieldType>, element: Element) -> Result<(), AllocError>
    ensures { OnOk result (held_by types.new.items ≡ held_by types.old.items ++ element ∷ []) }
{
    types.push(type_of(element))?;
    Ok(())
}

// The fields that the class declares.
fn push_own(types: &mut Vec<FieldType>, fields: &[FieldHead]) -> Result<(), AllocError>
    ensures { OnOk result (held_by types.new.items ≡ held_by types.old.items ++ own_elements fields.now) }
{
    for field in fields {
        if !is_static(field) {
            push(types, element_of(field.name.descriptor.as_slice()))?;
        }
    }
    Ok(())
}

// The fields that the library keeps of its own in objects of the class.
fn push_hidden(types: &mut Vec<FieldType>, class: &[u8]) -> Result<(), AllocError>
    ensures { OnOk result (held_by types.new.items ≡ held_by types.old.items ++ asked_by (hidden_fields class.now)) }
{
    if is_throwable(class) {
        push(types, Element::Reference)?;
        push(types, Element::Reference)?;
        return Ok(());
    }
    let Some(boxed) = boxed_in(class) else {
        return Ok(());
    };
    push(types, element_of(spelling(boxed)))?;
    Ok(())
}

// The fields that the class adds to its objects.
fn push_head(types: &mut Vec<FieldType>, head: &ClassHead) -> Result<(), AllocError>
    ensures { OnOk result (held_by types.new.items ≡ held_by types.old.items ++ asked_by (in_head head.now)) }
{
    push_own(types, head.fields.as_slice())?;
    push_hidden(types, head.name.as_slice())
}

/// The types of the fields of an object of the class, in their order (JVMS 2.5.1).
pub fn field_types(
    alloc: Global,
    world: &World,
    class: ClassId,
) -> Result<Vec<FieldType>, AllocError>
    requires { class.0 < length world.now.heads }
    ensures { IfOk result (λ types. held_by types.items ≡ asked_by (flat_map (in_place world.now.heads) (superclasses world.now.heads class.0))) }
{
    let mut types = Vec::new(alloc);
    let mut at = Some(class);
    for _turn in 0..world.classes() {
        let Some(here) = at else {
            return Ok(types);
        };
        let head = world.head(here);
        push_head(&mut types, head)?;
        at = superclass_of(world, head);
    }
    Ok(types)
}

// Whether the objects of the class have texts.
fn has_text(class: &[u8]) -> bool
    ensures { result ≡ is_text_class class.now }
{
    class == b"java/lang/String".as_slice()
        || class == b"java/lang/StringBuffer".as_slice()
        || class == b"java/lang/StringBuilder".as_slice()
}

/// A new object of the class: an empty text, or one whose fields have their first values (JVMS 2.5.1,
/// 6, `new`). A call that fails leaves the heap as it was.
pub fn make_object(
    alloc: Global,
    heap: &mut Heap,
    world: &World,
    class: ClassId,
) -> Result<Ref, AllocError>
    requires { class.0 < length world.now.heads }
    ensures made { IfOk result (λ at. MakesOf world.now class.0 heap.old heap.new at) }
    ensures within { IfOk result (λ at. at.0 < length heap.new.names) }
    ensures filled { OnOk result (KeepsFilled world.now class.0 heap.old heap.new) }
    ensures names { IsLonger heap.old heap.new }
    ensures err { OnErr result (heap.new ≡ heap.old) }
{
    let types = field_types(alloc, world, class)?;
    make(
        heap,
        class,
        has_text(name_of(world, class)),
        types.as_slice(),
    )
}
