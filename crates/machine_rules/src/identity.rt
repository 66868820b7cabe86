//! What objects tell of themselves.

ghost use Rattle.std.specs.Prelude.{◌≡◌, ◌<◌, ◌++◌, ◌∷◌, length, IfOk, OnErr};
ghost use Rattle.std.specs.Option.{option_map};
ghost use Rattle.boot_library.specs.declared.rule.LibraryRule.TheVariants as rule;
ghost use Rattle.class_world.specs.Tables.{Known};
ghost use Rattle.class_machine.specs.LibraryCalls as calls;
ghost use Rattle.class_machine.specs.Numbers.{hexadecimal};
ghost use Rattle.class_machine.specs.Texts.{class_text};
ghost use Rattle.class_machine.specs.Values.{class_of, number_of};
ghost use Rattle.machine_values.specs.Standing.{name_of, held, Settled};
ghost use Rattle.machine_values.specs.Things.{Things};
ghost use Rattle.machine_requests.specs.Replies.{IsLonger};
ghost use Rattle.machine_rules.specs.Filling.{FillsStill};
ghost use Rattle.machine_rules.specs.Library.{HasLibrary};
ghost use Rattle.machine_rules.specs.Texts.{class_object_text, is_same_place};
ghost use Rattle.machine_rules.specs.Works.{Does, ChangesBy};

use crate::classes::{class_of, number_of, type_name};
use crate::numbers::{count_int, put_hexadecimal};
use crate::strings::{give_text, truth};
use crate::texts::put_class;
use crate::work::Work;
use class_world::World;
use machine_values::{Heap, Name, Ref, Value};
use std::alloc::{AllocError, Global};

/// The identity hash: the low 32 bits of the object's number.
pub(crate) fn identity_hash(heap: &Heap, at: Ref) -> Work
    requires { at.0 < length heap.now.names }
    ensures { (k : Known) → Does k heap.now (λ s names w. calls.gives (calls.identity_hash (name_of s.heads names at)) w) heap.now result }
{
    Work::Results(None, Some(Value::Int(count_int(number_of(heap, at)))))
}

fn is_same_place(at: Ref, other: Value) -> bool
    ensures { result ≡ is_same_place at other }
{
    match other {
        Value::Reference(place) => at.0 == place.0,
        _ => false,
    }
}

/// Whether the value is the same object.
pub(crate) fn same_object(at: Ref, other: Value) -> Work
    ensures { (k : Known) (things : Things) → at.0 < length things.names → Settled (length things.names) other → Does k things (λ s names w. calls.with_argument s.classes w rule.SameObject (name_of s.heads names at) (held s.heads names other)) things result }
{
    Work::Results(None, Some(truth(is_same_place(at, other))))
}

/// The class's name with dots, a `@`, and the identity hash in hexadecimal.
pub(crate) fn description(
    alloc: Global,
    heap: &Heap,
    world: &World,
    at: Ref,
) -> Result<Vec<u16>, AllocError>
    requires { at.0 < length heap.now.names }
    ensures { IfOk result (λ units. units.items ≡ class_text (class_of (name_of world.now.heads heap.now.names at)) ++ 64 ∷ hexadecimal (number_of (name_of world.now.heads heap.now.names at))) }
{
    let class = class_of(alloc, heap, world, at)?;
    let mut units = Vec::new(alloc);
    put_class(alloc, &mut units, class.as_slice())?;
    units.push(64)?;
    put_hexadecimal(&mut units, number_of(heap, at))?;
    Ok(units)
}

/// Gives a new String of that.
pub(crate) fn describe(
    alloc: Global,
    heap: &mut Heap,
    world: &World,
    at: Ref,
) -> Result<Work, AllocError>
    requires library { HasLibrary world.now }
    requires at { at.0 < length heap.old.names }
    ensures work { IfOk result (λ work. Does world.now heap.old (λ s names w. calls.on_object s.classes w rule.Describe (name_of s.heads names at)) heap.new work) }
    ensures names { IsLonger heap.old heap.new }
    ensures filled { IfOk result (λ work. FillsStill world.now heap.old heap.new) }
    ensures changes { IfOk result (λ work. ChangesBy heap.old heap.new work) }
    ensures err { OnErr result (heap.new ≡ heap.old) }
{
    let units = description(alloc, heap, world, at)?;
    give_text(heap, world, units.as_slice())
}

// The dotted name of the class or array type that the object stands for.
fn class_object_text(alloc: Global, heap: &Heap, at: Ref) -> Result<Option<Vec<u16>>, AllocError>
    requires { at.0 < length heap.now.names }
    ensures { IfOk result (λ text. option_map (λ units. units.items) text ≡ class_object_text heap.now at.0) }
{
    match heap.name(at) {
        Name::ClassObject(class) => {
            let name = type_name(alloc, class)?;
            let mut units = Vec::new(alloc);
            put_class(alloc, &mut units, name.as_slice())?;
            Ok(Some(units))
        }
        _ => Ok(None),
    }
}

/// Gives a new String of the dotted name of the class that the object stands for.
pub(crate) fn class_name(
    alloc: Global,
    heap: &mut Heap,
    world: &World,
    at: Ref,
) -> Result<Work, AllocError>
    requires library { HasLibrary world.now }
    requires at { at.0 < length heap.old.names }
    ensures work { IfOk result (λ work. Does world.now heap.old (λ s names w. calls.class_name w (name_of s.heads names at)) heap.new work) }
    ensures names { IsLonger heap.old heap.new }
    ensures filled { IfOk result (λ work. FillsStill world.now heap.old heap.new) }
    ensures changes { IfOk result (λ work. ChangesBy heap.old heap.new work) }
    ensures err { OnErr result (heap.new ≡ heap.old) }
{
    let text = class_object_text(alloc, heap, at)?;
    match text {
        Some(units) => give_text(heap, world, units.as_slice()),
        None => Ok(Work::Misuses),
    }
}
