//! The objects that are made for the arguments of an entry: new Strings, and arrays of them.

ghost use Rattle.std.specs.Prelude.{◌≡◌, ◌<◌, Some, length, map, replicate, slice_get, IfOk, OnOk};
ghost use Rattle.class_machine.specs.Start.{Text as text_of, Texts as texts_of};
ghost use Rattle.class_machine.specs.Values.{string_class};
ghost use Rattle.machine_values.specs.declared.content.Content.TheVariants.{Values};
ghost use Rattle.machine_values.specs.declared.values.Value.TheVariants.{Null, Reference as Pointer};
ghost use Rattle.machine_values.specs.Things.{changed};
ghost use Rattle.machine_requests.specs.Objects.{AreFilled};
ghost use Rattle.machine_requests.specs.Shares.{Setting};
ghost use Rattle.machine_steps.specs.Programs.{IsRunnable};
ghost use Rattle.machine_start.specs.Arguments.{argument_of, array_type, KeepsContents, MakesValue, MakesValues};

use aj_names::{Base, FieldType, InternalName, Items};
use class_world::World;
use machine_natives::make_string;
use machine_values::{EntryArg, Heap, Ref, Value};
use std::alloc::{AllocError, Global};

// The most elements that an array has.
const MOST: usize = 4294967295;

// A new String of these units.
fn make_text(heap: &mut Heap, world: &World, units: &[u16]) -> Result<Value, AllocError>
    requires { IsRunnable world.now }
    ensures made { IfOk result (λ value. MakesValue world.now heap.old (text_of units.now) heap.new value) }
    ensures kept { OnOk result (KeepsContents heap.old heap.new) }
{
    let at = make_string(heap, world, units)?;
    Ok(Value::Reference(at))
}

// New Strings of these texts, in their order.
fn make_texts(
    alloc: Global,
    heap: &mut Heap,
    world: &World,
    texts: &[Items<u16>],
) -> Result<Items<Value>, AllocError>
    requires { IsRunnable world.now }
    ensures made { IfOk result (λ values. MakesValues world.now heap.old (map text_of texts.now) heap.new values) }
    ensures many { IfOk result (λ values. length values ≡ length texts.now) }
    ensures kept { OnOk result (KeepsContents heap.old heap.new) }
{
    let mut values = Items::new(alloc);
    for text in texts {
        let value = make_text(heap, world, text.as_slice())?;
        values.push(value)?;
    }
    Ok(values)
}

// The type of arrays of Strings.
fn array_of_strings(alloc: Global) -> Result<FieldType, AllocError>
    ensures { IfOk result (λ class. class ≡ array_type string_class) }
{
    let name = InternalName::from_slice(alloc, b"java/lang/String")?;
    Ok(FieldType {
        base: Base::Class(name),
        dims: 1,
    })
}

// Each element of the array gets its value. The array had as many nulls.
fn fill_array(heap: &mut Heap, at: Ref, values: &[Value])
    requires { at.0 < length heap.old.names }
    ensures names { heap.new.names ≡ heap.old.names }
    ensures filled { (s : Setting) → AreFilled heap.old s → AreFilled heap.new s }
    ensures elements { slice_get heap.old.contents at.0 ≡ Some (Values (replicate (length values.now) Null)) → heap.new ≡ changed heap.old at.0 (Values values.now) }
{
    let count = heap.len(at);
    for index in 0..count {
        let Some(value) = values.get(index as usize) else {
            return;
        };
        heap.store(at, index, *value);
    }
}

// A new array of new Strings of these texts; the array comes before its elements.
fn make_array(
    alloc: Global,
    heap: &mut Heap,
    world: &World,
    texts: &[Items<u16>],
) -> Result<Value, AllocError>
    requires { IsRunnable world.now }
    ensures { IfOk result (λ value. MakesValue world.now heap.old (texts_of texts.now) heap.new value) }
{
    if texts.len() > MOST {
        return Err(AllocError);
    }
    let class = array_of_strings(alloc)?;
    let at = heap.make_array(&class, texts.len() as u32)?;
    let values = make_texts(alloc, heap, world, texts)?;
    fill_array(heap, at, values.as_slice());
    Ok(Value::Reference(at))
}

// The value of an argument.
fn make_argument(
    alloc: Global,
    heap: &mut Heap,
    world: &World,
    arg: &EntryArg,
) -> Result<Value, AllocError>
    requires { IsRunnable world.now }
    ensures { IfOk result (λ value. MakesValue world.now heap.old (argument_of arg.now) heap.new value) }
{
    match arg {
        EntryArg::Int(n) => Ok(Value::Int(*n)),
        EntryArg::Long(n) => Ok(Value::Long(*n)),
        EntryArg::Null => Ok(Value::Null),
        EntryArg::Text(units) => make_text(heap, world, units.as_slice()),
        EntryArg::Texts(texts) => make_array(alloc, heap, world, texts.as_slice()),
    }
}

/// The values of the arguments, with their objects made in the order of the words.
pub(crate) fn make_arguments(
    alloc: Global,
    heap: &mut Heap,
    world: &World,
    args: &[EntryArg],
) -> Result<Items<Value>, AllocError>
    requires { IsRunnable world.now }
    ensures { IfOk result (λ values. MakesValues world.now heap.old (map argument_of args.now) heap.new values) }
{
    let mut values = Items::new(alloc);
    for arg in args {
        let value = make_argument(alloc, heap, world, arg)?;
        values.push(value)?;
    }
    Ok(values)
}
