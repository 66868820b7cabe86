//! The objects that stand for classes and array types (JVMS 2.17.2), and the hashes of objects.

ghost use Rattle.std.specs.Prelude.{◌≡◌, ◌<◌, ◌∷◌, [], true, false, length, IfOk, IfSome, OnErr};
ghost use Rattle.std.specs.Option.{option_map};
ghost use Rattle.boot_library.specs.declared.rule.LibraryRule.TheVariants as rule;
ghost use Rattle.class_heads.specs.Hierarchy.{is_array};
ghost use Rattle.class_world.specs.Tables.{Known};
ghost use Rattle.class_machine.specs.LibraryCalls as calls;
ghost use Rattle.class_machine.specs.Values.{class_of};
ghost use Rattle.machine_values.specs.Standing.{name_of, held, Settled};
ghost use Rattle.machine_values.specs.Types.{type_name};
ghost use Rattle.machine_requests.specs.Objects.{StaysFilled};
ghost use Rattle.machine_requests.specs.Replies.{IsLonger};
ghost use Rattle.machine_requests.specs.Shares.{Setting};
ghost use Rattle.machine_requests.specs.Telling.{AreDistinct, AreFit, is_class_type, is_plain};
ghost use Rattle.machine_rules.specs.ClassObjects.{class_named, found_by};
ghost use Rattle.machine_rules.specs.Fields.{AreWhole, StaysWhole};
ghost use Rattle.machine_rules.specs.Library.{HasLibrary};
ghost use Rattle.machine_rules.specs.Works.{Does, ChangesBy};

use crate::arguments::{TextArgument, text_argument};
use crate::classes::{class_name, knows};
use crate::exceptions::not_found;
use crate::identity::identity_hash;
use crate::texts::{class_of_text, is_unfit};
use crate::work::Work;
use aj_names::{Base, FieldType, InternalName};
use class_machine::kinds::Fault;
use class_world::World;
use machine_values::{Heap, Maker, Name, Ref, Value};
use std::alloc::{AllocError, Global};

// The class of that name, as a type.
fn class_named(alloc: Global, name: &[u8]) -> Result<FieldType, AllocError>
    ensures { IfOk result (λ class. class ≡ class_named name.now) }
{
    let name = InternalName::from_slice(alloc, name)?;
    Ok(FieldType {
        base: Base::Class(name),
        dims: 0,
    })
}

// The class or array type of the object.
fn type_of(alloc: Global, heap: &Heap, world: &World, at: Ref) -> Result<FieldType, AllocError>
    requires { at.0 < length heap.now.names }
    ensures name { IfOk result (λ class. type_name class ≡ class_of (name_of world.now.heads heap.now.names at)) }
    ensures class { IfOk result (λ class. AreDistinct world.now.heads → AreFit (length world.now.heads) heap.now.names → is_class_type class ≡ true) }
{
    match heap.name(at) {
        Name::Made(Maker::Class(class), _) => class_named(alloc, class_name(world, *class)),
        Name::Made(Maker::Array(class), _) => class.copy(),
        Name::Literal(_) => class_named(alloc, b"java/lang/String"),
        Name::ClassObject(_) => class_named(alloc, b"java/lang/Class"),
    }
}

/// The object that stands for the class of the object. A call that fails leaves the heap as it was.
pub(crate) fn get_class(
    alloc: Global,
    heap: &mut Heap,
    world: &World,
    at: Ref,
) -> Result<Work, AllocError>
    requires { at.0 < length heap.old.names }
    ensures work { IfOk result (λ work. Does world.now heap.old (λ s names w. calls.on_object s.classes w rule.GetClass (name_of s.heads names at)) heap.new work) }
    ensures names { IsLonger heap.old heap.new }
    ensures filled { IfOk result (λ work. (s : Setting) → StaysFilled heap.old heap.new s) }
    ensures changes { IfOk result (λ work. ChangesBy heap.old heap.new work) }
    ensures err { OnErr result (heap.new ≡ heap.old) }
{
    let class = type_of(alloc, heap, world, at)?;
    let object = heap.class_object(&class)?;
    Ok(Work::Results(None, Some(Value::Reference(object))))
}

/// The identity hash of an object, and 0 of null.
pub(crate) fn hash_of(heap: &Heap, value: Value) -> Work
    requires { Settled (length heap.now.names) value }
    ensures { (k : Known) → Does k heap.now (λ s names w. calls.by_static_rule s.classes w rule.HashOf (held s.heads names value ∷ [])) heap.now result }
{
    match value {
        Value::Null => Work::Results(None, Some(Value::Int(0))),
        Value::Reference(at) => identity_hash(heap, at),
        _ => Work::Misuses,
    }
}

// Whether the name is that of an array type.
fn is_array(name: &[u8]) -> bool
    ensures { result ≡ is_array name.now }
{
    matches!(name, [b'[', ..])
}

// The class or array type that is named as Class entries name it (JVMS 4.4.1). Where an array type is
// described, only memory can be wanting.
fn type_named(alloc: Global, name: &[u8]) -> Result<FieldType, AllocError>
    ensures name { IfOk result (λ class. type_name class ≡ name.now) }
    ensures class { IfOk result (λ class. (is_array name.now ≡ false → is_plain name.now ≡ true) → is_class_type class ≡ true) }
{
    if !is_array(name) {
        return class_named(alloc, name);
    }
    match FieldType::read(alloc, name) {
        Ok(class) => Ok(class),
        Err(_) => Err(AllocError),
    }
}

// The class or array type of the dotted name, where it is there and a program may find it.
fn found_by(alloc: Global, world: &World, units: &[u16]) -> Result<Option<FieldType>, AllocError>
    ensures found { IfOk result (λ found. option_map type_name found ≡ found_by world.now units.now) }
    ensures class { IfOk result (λ found. AreDistinct world.now.heads → IfSome found (λ class. is_class_type class ≡ true)) }
{
    if is_unfit(units) {
        return Ok(None);
    }
    let name = class_of_text(alloc, units)?;
    if !knows(world, name.as_slice()) {
        return Ok(None);
    }
    let class = type_named(alloc, name.as_slice())?;
    Ok(Some(class))
}

/// Initialises the class of the dotted name and gives its object; throws a new ClassNotFoundException
/// where there is no such class. A call that fails leaves the heap as it was.
pub(crate) fn for_name(
    alloc: Global,
    heap: &mut Heap,
    world: &World,
    name: Value,
) -> Result<Work, AllocError>
    requires library { HasLibrary world.now }
    requires name { Settled (length heap.old.names) name }
    ensures work { IfOk result (λ work. AreWhole world.now heap.old → Does world.now heap.old (λ s names w. calls.by_static_rule s.classes w rule.ForName (held s.heads names name ∷ [])) heap.new work) }
    ensures names { IsLonger heap.old heap.new }
    ensures filled { IfOk result (λ work. StaysWhole world.now heap.old heap.new) }
    ensures changes { IfOk result (λ work. ChangesBy heap.old heap.new work) }
    ensures err { OnErr result (heap.new ≡ heap.old) }
{
    let found = match text_argument(heap, world, name) {
        TextArgument::Units(units) => found_by(alloc, world, units)?,
        TextArgument::Nothing => return Ok(Work::Faults(Fault::NullPointer)),
        TextArgument::Other => return Ok(Work::Misuses),
    };
    match found {
        Some(class) => Ok(Work::Loads(class)),
        None => not_found(alloc, heap, world, name),
    }
}
