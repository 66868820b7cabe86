//! A library call that waited for a text goes on.

ghost use Rattle.std.specs.Prelude.{◌≡◌, ◌<◌, ◌++◌, true, length, IfOk, OnErr, OnOk};
ghost use Rattle.std.specs.Option.{option_map};
ghost use Rattle.class_machine.specs.LibraryCalls as calls;
ghost use Rattle.machine_values.specs.Standing.{name_of, held, Settled};
ghost use Rattle.machine_values.specs.States.{is_known_object};
ghost use Rattle.machine_requests.specs.Replies.{IsLonger};
ghost use Rattle.machine_rules.specs.Filling.{FillsStill};
ghost use Rattle.machine_rules.specs.Finishing.{text_of};
ghost use Rattle.machine_rules.specs.Library.{HasLibrary};
ghost use Rattle.machine_rules.specs.Waiting.{behind_class, wait_of};
ghost use Rattle.machine_rules.specs.Works.{Does, DoesAnywhere, IsKnownWait, ChangesBy};

use crate::classes::{class_of, is_string};
use crate::finishing::{finish_made, finish_text};
use crate::numbers::put_bytes;
use crate::objects::text_at;
use crate::texts::put_class;
use crate::work::Work;
use class_world::World;
use machine_values::{Heap, Ref, Value, Wait};
use std::alloc::{AllocError, Global};

// The units of a String behind a colon; of null none.
fn put_message(out: &mut Vec<u16>, heap: &Heap, message: Option<Ref>) -> Result<(), AllocError>
    requires { is_known_object (length heap.now.names) message ≡ true }
    ensures { OnOk result (out.new.items ≡ out.old.items ++ behind_class (text_of heap.now message)) }
{
    let Some(at) = message else {
        return Ok(());
    };
    match text_at(heap, at) {
        Some(units) => {
            put_bytes(out, b": ")?;
            out.extend_from_slice(units)?;
            Ok(())
        }
        None => Ok(()),
    }
}

// The description of an exception: its class, and its message where it has one.
fn described(
    alloc: Global,
    heap: &Heap,
    world: &World,
    x: Ref,
    message: Option<Ref>,
) -> Result<Vec<u16>, AllocError>
    requires x { x.0 < length heap.now.names }
    requires message { is_known_object (length heap.now.names) message ≡ true }
    ensures { IfOk result (λ units. units.items ≡ calls.described (name_of world.now.heads heap.now.names x) (text_of heap.now message)) }
{
    let class = class_of(alloc, heap, world, x)?;
    let mut units = Vec::new(alloc);
    put_class(alloc, &mut units, class.as_slice())?;
    put_message(&mut units, heap, message)?;
    Ok(units)
}

// What a call does that waited for a String or null.
fn finish_wait(
    alloc: Global,
    heap: &mut Heap,
    world: &World,
    wait: &Wait,
    text: Option<Ref>,
) -> Result<Work, AllocError>
    requires library { HasLibrary world.now }
    requires wait { IsKnownWait (length heap.old.names) wait.now }
    requires text { is_known_object (length heap.old.names) text ≡ true }
    ensures work { IfOk result (λ work. Does world.now heap.old (λ s names w. calls.finish_text (wait_of s names wait.now) (option_map (name_of s.heads names) text) (text_of heap.old text) w) heap.new work) }
    ensures names { IsLonger heap.old heap.new }
    ensures filled { IfOk result (λ work. FillsStill world.now heap.old heap.new) }
    ensures changes { IfOk result (λ work. ChangesBy heap.old heap.new work) }
    ensures err { OnErr result (heap.new ≡ heap.old) }
{
    match wait.describes {
        Some(x) => {
            let units = described(alloc, heap, world, x, text)?;
            finish_made(alloc, heap, world, wait.destination, units.as_slice())
        }
        None => finish_text(alloc, heap, world, wait.destination, text),
    }
}

/// What a call does that waited for this text: a String or null. It misuses another value.
pub fn resume(
    alloc: Global,
    heap: &mut Heap,
    world: &World,
    wait: &Wait,
    value: Value,
) -> Result<Work, AllocError>
    requires library { HasLibrary world.now }
    requires wait { IsKnownWait (length heap.old.names) wait.now }
    requires value { Settled (length heap.old.names) value }
    ensures work { IfOk result (λ work. DoesAnywhere world.now heap.old (λ s names w. calls.resume (wait_of s names wait.now) (held s.heads names value) w) heap.new work) }
    ensures names { IsLonger heap.old heap.new }
    ensures filled { IfOk result (λ work. FillsStill world.now heap.old heap.new) }
    ensures changes { IfOk result (λ work. ChangesBy heap.old heap.new work) }
    ensures err { OnErr result (heap.new ≡ heap.old) }
{
    match value {
        Value::Null => finish_wait(alloc, heap, world, wait, None),
        Value::Reference(at) => {
            if is_string(heap, world, at) {
                finish_wait(alloc, heap, world, wait, Some(at))
            } else {
                Ok(Work::Misuses)
            }
        }
        _ => Ok(Work::Misuses),
    }
}
