//! New Strings, and the exceptions that a script throws (JVMS 2.16, 2.8.1).

ghost use Rattle.std.specs.Prelude.{◌≡◌, ◌<◌, false, length, IfOk, OnErr};
ghost use Rattle.class_heads.specs.Hierarchy.{name_at};
ghost use Rattle.class_machine.specs.Natives.{with_message};
ghost use Rattle.class_machine.specs.World as worlds;
ghost use Rattle.class_machine.specs.World.{is_text_class};
ghost use Rattle.machine_steps.specs.Programs.{IsRunnable};
ghost use Rattle.machine_natives.specs.Responses.{Comes, lacks};
ghost use Rattle.machine_natives.specs.Throwables.{KeepsMessage, Makes, MakesString};

use crate::classes::string_class;
use crate::response::Response;
use aj_names::ClassId;
use class_world::World;
use machine_fields::{field_types, message_position};
use machine_requests::make;
use machine_steps::class_name;
use machine_values::{Heap, Ref, Value};
use std::alloc::{AllocError, Global};

/// A new String of these units. A call that fails leaves the heap as it was.
pub fn make_string(heap: &mut Heap, world: &World, units: &[u16]) -> Result<Ref, AllocError>
    requires { IsRunnable world.now }
    ensures made { IfOk result (λ at. MakesString world.now heap.old units.now heap.new at) }
    ensures within { IfOk result (λ at. at.0 < length heap.new.names) }
    ensures err { OnErr result (heap.new ≡ heap.old) }
{
    heap.make_text(string_class(world), units)
}

// Whether the objects of the class have texts.
fn has_text(class: &[u8]) -> bool
    ensures { result ≡ is_text_class class.now }
{
    class == b"java/lang/String".as_slice()
        || class == b"java/lang/StringBuffer".as_slice()
        || class == b"java/lang/StringBuilder".as_slice()
}

// A new object of the class.
fn make_exception(
    alloc: Global,
    heap: &mut Heap,
    world: &World,
    class: ClassId,
) -> Result<Ref, AllocError>
    requires runnable { IsRunnable world.now }
    requires class { class.0 < length world.now.heads }
    ensures made { IfOk result (λ at. Makes world.now class heap.old heap.new at) }
    ensures err { OnErr result (heap.new ≡ heap.old) }
{
    let types = field_types(alloc, world, class)?;
    let text = has_text(class_name(world, class));
    make(heap, class, text, types.as_slice())
}

// The text becomes the message of the exception, which an object of the class has by a place among its
// fields. A class may be below `Throwable` by an interface alone: its objects are left as they are.
fn keep_message(heap: &mut Heap, world: &World, class: ClassId, x: Ref, text: Ref)
    requires class { class.0 < length world.now.heads }
    requires exception { x.0 < length heap.old.names }
    requires text { text.0 < length heap.old.names }
    ensures { KeepsMessage world.now class heap.old heap.new x text }
{
    let count = heap.len(x);
    let Some(index) = message_position(world, class) else {
        return;
    };
    if index < count {
        heap.store(x, index, Value::Reference(text));
    }
}

/// A new object of the class, with a new String as its message, if it has one. A call that fails
/// leaves the heap as it was.
pub(crate) fn throw(
    alloc: Global,
    heap: &mut Heap,
    world: &World,
    class: ClassId,
    message: &[u16],
) -> Result<Response, AllocError>
    requires runnable { IsRunnable world.now }
    requires class { class.0 < length world.now.heads }
    ensures thrown { IfOk result (λ response. Comes world.now heap.old (λ cs w. with_message message.now (worlds.make cs w (name_at world.now.heads class.0))) heap.new response) }
    ensures lacks { IfOk result (λ response. lacks response ≡ false) }
    ensures err { OnErr result (heap.new ≡ heap.old) }
{
    let count = heap.count();
    let x = make_exception(alloc, heap, world, class)?;
    match make_string(heap, world, message) {
        Ok(text) => {
            keep_message(heap, world, class, x, text);
            Ok(Response::Throws(x))
        }
        Err(failed) => {
            heap.truncate(count);
            Err(failed)
        }
    }
}
