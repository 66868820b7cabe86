//! Values as events and endings show them.

ghost use Rattle.std.specs.Prelude.{◌≡◌, ◌<◌, length, slice_get, Some, true, IfOk};
ghost use Rattle.std.specs.Str.{bytes_eq};
ghost use Rattle.class_machine.specs.Values.{string_class};
ghost use Rattle.machine_values.specs.declared.names.Maker.TheVariants.{Class};
ghost use Rattle.machine_values.specs.declared.names.Name.TheVariants.{Made};
ghost use Rattle.machine_values.specs.declared.values.Value.TheVariants.{Reference as Pointer};
ghost use Rattle.machine_values.specs.States.{is_known};
ghost use Rattle.machine_invocations.specs.Showing.{Shows, units_in};

use aj_names::{ClassId, InternalName, Items};
use class_world::World;
use machine_steps::class_name;
use machine_values::{Content, Heap, Maker, Name, Ref, Shown, Value};
use std::alloc::{AllocError, Global};

fn is_string(name: &[u8]) -> bool
    ensures { result ≡ bytes_eq name.now string_class }
{
    name == b"java/lang/String".as_slice()
}

fn units_in(content: &Content) -> &[u16]
    ensures { result.now ≡ units_in content.now }
{
    match content {
        Content::Text(units) => units.as_slice(),
        _ => &[],
    }
}

// An object that was made of the class as the one of this number.
fn show_made(
    alloc: Global,
    world: &World,
    heap: &Heap,
    at: Ref,
    class: ClassId,
    number: u64,
) -> Result<Shown, AllocError>
    requires known { at.0 < length heap.now.names }
    requires made { slice_get heap.now.names at.0 ≡ Some (Made (Class class) number) }
    ensures { IfOk result (λ seen. Shows world.now heap.now (Pointer at) seen) }
{
    let name = class_name(world, class);
    if is_string(name) {
        let units = Items::from_slice(alloc, units_in(heap.content(at)))?;
        Ok(Shown::Text(units))
    } else {
        let class = InternalName::from_slice(alloc, name)?;
        Ok(Shown::Object(class, number))
    }
}

// An object that was made of a class or an array type.
fn show_one_of(
    alloc: Global,
    world: &World,
    heap: &Heap,
    at: Ref,
    maker: &Maker,
    number: u64,
) -> Result<Shown, AllocError>
    requires known { at.0 < length heap.now.names }
    requires made { slice_get heap.now.names at.0 ≡ Some (Made maker.now number) }
    ensures { IfOk result (λ seen. Shows world.now heap.now (Pointer at) seen) }
{
    match maker {
        Maker::Array(class) => {
            let class = class.copy()?;
            Ok(Shown::Array(class, number))
        }
        Maker::Class(class) => show_made(alloc, world, heap, at, *class, number),
    }
}

// An object.
fn show_object(alloc: Global, world: &World, heap: &Heap, at: Ref) -> Result<Shown, AllocError>
    requires { at.0 < length heap.now.names }
    ensures { IfOk result (λ seen. Shows world.now heap.now (Pointer at) seen) }
{
    match heap.name(at) {
        Name::Literal(units) => {
            let units = Items::from_slice(alloc, units.as_slice())?;
            Ok(Shown::Text(units))
        }
        Name::ClassObject(class) => {
            let class = class.copy()?;
            Ok(Shown::ClassObject(class))
        }
        Name::Made(maker, number) => show_one_of(alloc, world, heap, at, maker, *number),
    }
}

/// A value as an event or an ending shows it.
pub fn show(alloc: Global, world: &World, heap: &Heap, value: Value) -> Result<Shown, AllocError>
    requires { is_known (length heap.now.names) value ≡ true }
    ensures { IfOk result (λ seen. Shows world.now heap.now value seen) }
{
    match value {
        Value::Int(n) => Ok(Shown::Int(n)),
        Value::Long(n) => Ok(Shown::Long(n)),
        Value::Float(bits) => Ok(Shown::Float(bits)),
        Value::Double(bits) => Ok(Shown::Double(bits)),
        Value::Reference(at) => show_object(alloc, world, heap, at),
        _ => Ok(Shown::Null),
    }
}
