//! What is done with a text that a call has.

ghost use Rattle.std.specs.Prelude.{◌≡◌, ◌<◌, ◌++◌, true, length, is_some, Some, IfOk, OnErr, OnOk};
ghost use Rattle.std.specs.Option.{option_map};
ghost use Rattle.class_world.specs.Tables.{Known};
ghost use Rattle.class_machine.specs.LibraryCalls as calls;
ghost use Rattle.machine_values.specs.Standing.{name_of};
ghost use Rattle.machine_values.specs.States.{is_known_destination, is_known_object};
ghost use Rattle.machine_requests.specs.Objects.{AreFilled};
ghost use Rattle.machine_requests.specs.Replies.{IsLonger};
ghost use Rattle.machine_requests.specs.Shares.{Setting};
ghost use Rattle.machine_rules.specs.Filling.{FillsStill};
ghost use Rattle.machine_rules.specs.Finishing.{Sets, is_made_at, destination_of, reference_to, text_of};
ghost use Rattle.machine_rules.specs.Library.{HasLibrary};
ghost use Rattle.machine_rules.specs.Texts.{text_at, units_at};
ghost use Rattle.machine_rules.specs.Works.{Does, ChangesBy};

use crate::numbers::put_bytes;
use crate::objects::{has_text, make_string, text_at};
use crate::strings::{give_text, units_at};
use crate::work::Work;
use class_world::World;
use machine_values::{Destination, Event, Heap, Name, Ref, Value};
use std::alloc::{AllocError, Global};

fn is_made(heap: &Heap, at: Ref) -> bool
    requires { at.0 < length heap.now.names }
    ensures { result ≡ is_made_at heap.now at.0 }
{
    matches!(heap.name(at), Name::Made(_, _))
}

/// Gives a String or a buffer these units; a literal keeps its own. A call that fails leaves the heap as
/// it was.
pub(crate) fn fill(heap: &mut Heap, buffer: Ref, units: &[u16]) -> Result<(), AllocError>
    requires known { buffer.0 < length heap.old.names }
    requires text { is_some (text_at heap.old buffer.0) ≡ true }
    ensures ok { OnOk result (Sets heap.old buffer units.now heap.new) }
    ensures names { heap.new.names ≡ heap.old.names }
    ensures filled { OnOk result ((s : Setting) → AreFilled heap.old s → AreFilled heap.new s) }
    ensures err { OnErr result (heap.new ≡ heap.old) }
{
    if is_made(heap, buffer) {
        heap.set_text(buffer, units)
    } else {
        Ok(())
    }
}

/// The units go to the end of a String or a buffer; a literal keeps its own. A call that fails leaves the
/// heap as it was.
pub(crate) fn append(heap: &mut Heap, buffer: Ref, units: &[u16]) -> Result<(), AllocError>
    requires known { buffer.0 < length heap.old.names }
    requires text { is_some (text_at heap.old buffer.0) ≡ true }
    ensures ok { OnOk result (Sets heap.old buffer (units_at heap.old buffer.0 ++ units.now) heap.new) }
    ensures names { heap.new.names ≡ heap.old.names }
    ensures filled { OnOk result ((s : Setting) → AreFilled heap.old s → AreFilled heap.new s) }
    ensures err { OnErr result (heap.new ≡ heap.old) }
{
    if is_made(heap, buffer) {
        heap.append(buffer, units)
    } else {
        Ok(())
    }
}

// The units go to the end of the buffer, which is given; what holds no text is no buffer. A call that
// fails leaves the heap as it was.
fn append_and_give(heap: &mut Heap, buffer: Ref, units: &[u16]) -> Result<Work, AllocError>
    requires { buffer.0 < length heap.old.names }
    ensures work { IfOk result (λ work. (k : Known) → Does k heap.old (λ s names w. calls.appended units.now (name_of s.heads names buffer) w) heap.new work) }
    ensures names { heap.new.names ≡ heap.old.names }
    ensures filled { IfOk result (λ work. (s : Setting) → AreFilled heap.old s → AreFilled heap.new s) }
    ensures changes { IfOk result (λ work. ChangesBy heap.old heap.new work) }
    ensures err { OnErr result (heap.new ≡ heap.old) }
{
    if !has_text(heap, buffer) {
        return Ok(Work::Misuses);
    }
    append(heap, buffer, units)?;
    Ok(Work::Results(None, Some(Value::Reference(buffer))))
}

/// What is done with a text that no String holds yet.
pub(crate) fn finish_units(
    alloc: Global,
    heap: &mut Heap,
    world: &World,
    to: Destination,
    units: &[u16],
) -> Result<Work, AllocError>
    requires library { HasLibrary world.now }
    requires to { is_known_destination (length heap.old.names) to ≡ true }
    ensures work { IfOk result (λ work. Does world.now heap.old (λ s names w. calls.finish_units (destination_of s names to) units.now w) heap.new work) }
    ensures names { IsLonger heap.old heap.new }
    ensures filled { IfOk result (λ work. FillsStill world.now heap.old heap.new) }
    ensures changes { IfOk result (λ work. ChangesBy heap.old heap.new work) }
    ensures err { OnErr result (heap.new ≡ heap.old) }
{
    match to {
        Destination::Prints(line) => {
            let event = Event::printed(alloc, units, line)?;
            Ok(Work::Results(Some(event), None))
        }
        Destination::Appends(buffer) => append_and_give(heap, buffer, units),
        Destination::Gives => give_text(heap, world, units),
    }
}

// Makes a String of the units, and appends them to the buffer; what holds no text is no buffer. A call
// that fails leaves the heap as it was.
fn make_and_append(
    heap: &mut Heap,
    world: &World,
    buffer: Ref,
    units: &[u16],
) -> Result<Work, AllocError>
    requires library { HasLibrary world.now }
    requires buffer { buffer.0 < length heap.old.names }
    ensures work { IfOk result (λ work. Does world.now heap.old (λ s names w. calls.finish_made (calls.Appends (name_of s.heads names buffer)) w (Some units.now)) heap.new work) }
    ensures names { IsLonger heap.old heap.new }
    ensures filled { IfOk result (λ work. FillsStill world.now heap.old heap.new) }
    ensures changes { IfOk result (λ work. ChangesBy heap.old heap.new work) }
    ensures err { OnErr result (heap.new ≡ heap.old) }
{
    if !has_text(heap, buffer) {
        return Ok(Work::Misuses);
    }
    let count = heap.count();
    make_string(heap, world, units)?;
    match append(heap, buffer, units) {
        Ok(()) => Ok(Work::Results(None, Some(Value::Reference(buffer)))),
        Err(error) => {
            heap.truncate(count);
            Err(error)
        }
    }
}

/// What is done with a text of which a new String is made first.
pub(crate) fn finish_made(
    alloc: Global,
    heap: &mut Heap,
    world: &World,
    to: Destination,
    units: &[u16],
) -> Result<Work, AllocError>
    requires library { HasLibrary world.now }
    requires to { is_known_destination (length heap.old.names) to ≡ true }
    ensures work { IfOk result (λ work. Does world.now heap.old (λ s names w. calls.finish_made (destination_of s names to) w (Some units.now)) heap.new work) }
    ensures names { IsLonger heap.old heap.new }
    ensures filled { IfOk result (λ work. FillsStill world.now heap.old heap.new) }
    ensures changes { IfOk result (λ work. ChangesBy heap.old heap.new work) }
    ensures err { OnErr result (heap.new ≡ heap.old) }
{
    match to {
        Destination::Prints(line) => {
            let event = Event::printed(alloc, units, line)?;
            make_string(heap, world, units)?;
            Ok(Work::Results(Some(event), None))
        }
        Destination::Appends(buffer) => make_and_append(heap, world, buffer, units),
        Destination::Gives => give_text(heap, world, units),
    }
}

// A reference that may be null.
fn reference(text: Option<Ref>) -> Value
    ensures { result ≡ reference_to text }
{
    match text {
        Some(at) => Value::Reference(at),
        None => Value::Null,
    }
}

// The units of a String, or `null`.
fn text_or_null(alloc: Global, heap: &Heap, text: Option<Ref>) -> Result<Vec<u16>, AllocError>
    requires { is_known_object (length heap.now.names) text ≡ true }
    ensures { IfOk result (λ units. units.items ≡ calls.text_or_null (text_of heap.now text)) }
{
    let mut units = Vec::new(alloc);
    match text {
        Some(at) => match text_at(heap, at) {
            Some(kept) => units.extend_from_slice(kept)?,
            None => put_bytes(&mut units, b"null")?,
        },
        None => put_bytes(&mut units, b"null")?,
    }
    Ok(units)
}

/// What is done with a String that there is, or with null.
pub(crate) fn finish_text(
    alloc: Global,
    heap: &mut Heap,
    world: &World,
    to: Destination,
    text: Option<Ref>,
) -> Result<Work, AllocError>
    requires library { HasLibrary world.now }
    requires to { is_known_destination (length heap.old.names) to ≡ true }
    requires text { is_known_object (length heap.old.names) text ≡ true }
    ensures work { IfOk result (λ work. Does world.now heap.old (λ s names w. calls.finish_text (destination_of s names to) (option_map (name_of s.heads names) text) (text_of heap.old text) w) heap.new work) }
    ensures names { IsLonger heap.old heap.new }
    ensures filled { IfOk result (λ work. FillsStill world.now heap.old heap.new) }
    ensures changes { IfOk result (λ work. ChangesBy heap.old heap.new work) }
    ensures err { OnErr result (heap.new ≡ heap.old) }
{
    match to {
        Destination::Gives => Ok(Work::Results(None, Some(reference(text)))),
        _ => {
            let units = text_or_null(alloc, heap, text)?;
            finish_units(alloc, heap, world, to, units.as_slice())
        }
    }
}
