//! What exceptions do (JVMS 2.16): their messages and causes.

ghost use Rattle.std.specs.Prelude.{◌≡◌, ◌<◌, false, length, is_some, IfOk, OnOk, OnErr};
ghost use Rattle.boot_library.specs.declared.rule.LibraryRule.TheVariants as rule;
ghost use Rattle.class_heads.specs.Hierarchy.{name_at};
ghost use Rattle.class_machine.specs.LibraryCalls as calls;
ghost use Rattle.class_machine.specs.World.{is_text_class};
ghost use Rattle.machine_values.specs.Standing.{name_of, held, Settled};
ghost use Rattle.machine_requests.specs.Objects.{AreFilled};
ghost use Rattle.machine_requests.specs.Replies.{IsLonger};
ghost use Rattle.machine_requests.specs.Shares.{Setting};
ghost use Rattle.machine_fields.specs.NewObjects.{KeepsFilled, MakesOf};
ghost use Rattle.machine_rules.specs.Exceptions.{TellsCause, IsLast};
ghost use Rattle.machine_rules.specs.Fields.{AreWhole, StaysWhole};
ghost use Rattle.machine_rules.specs.Library.{HasLibrary};
ghost use Rattle.machine_rules.specs.Texts.{argument_at};
ghost use Rattle.machine_rules.specs.Works.{Does, ChangesBy};

use crate::classes::{class_there, is_string};
use crate::fields::{HiddenField, give_hidden, write_reference};
use crate::work::Work;
use aj_names::ClassId;
use class_world::World;
use machine_fields::{field_types, is_object_below};
use machine_requests::make;
use machine_values::{Heap, Ref, Value};
use std::alloc::{AllocError, Global};

/// The message of the exception.
pub(crate) fn message(heap: &Heap, world: &World, at: Ref) -> Work
    requires { at.0 < length heap.now.names }
    ensures { Does world.now heap.now (λ s names w. calls.on_object s.classes w rule.Message (name_of s.heads names at)) heap.now result }
{
    give_hidden(heap, world, at, HiddenField::Message)
}

/// The cause of the exception.
pub(crate) fn cause(heap: &Heap, world: &World, at: Ref) -> Work
    requires { at.0 < length heap.now.names }
    ensures { Does world.now heap.now (λ s names w. calls.on_object s.classes w rule.Cause (name_of s.heads names at)) heap.now result }
{
    give_hidden(heap, world, at, HiddenField::Cause)
}

// Whether the value is a String or null.
fn is_text(heap: &Heap, world: &World, value: Value) -> bool
    requires { Settled (length heap.now.names) value }
    ensures { result ≡ is_some (argument_at world.now.heads heap.now value) }
{
    match value {
        Value::Null => true,
        Value::Reference(at) => is_string(heap, world, at),
        _ => false,
    }
}

// Whether the value is an instance of Throwable or null.
fn is_cause(heap: &Heap, world: &World, value: Value) -> bool
    requires { Settled (length heap.now.names) value }
    ensures { TellsCause world.now heap.now value result }
{
    match value {
        Value::Null => true,
        Value::Reference(at) => is_object_below(world, heap, at, b"java/lang/Throwable"),
        _ => false,
    }
}

/// The exception gets a message.
pub(crate) fn set_message(heap: &mut Heap, world: &World, at: Ref, text: Value) -> Work
    requires at { at.0 < length heap.old.names }
    requires text { Settled (length heap.old.names) text }
    ensures work { Does world.now heap.old (λ s names w. calls.with_argument s.classes w rule.SetMessage (name_of s.heads names at) (held s.heads names text)) heap.new result }
    ensures names { heap.new.names ≡ heap.old.names }
    ensures filled { (s : Setting) → AreFilled heap.old s → AreFilled heap.new s }
    ensures changes { ChangesBy heap.old heap.new result }
{
    if !is_text(heap, world, text) {
        return Work::Misuses;
    }
    write_reference(heap, world, at, HiddenField::Message, text);
    Work::Results(None, None)
}

/// The exception gets a message and a cause.
pub(crate) fn set_message_and_cause(
    heap: &mut Heap,
    world: &World,
    at: Ref,
    text: Value,
    cause: Value,
) -> Work
    requires at { at.0 < length heap.old.names }
    requires text { Settled (length heap.old.names) text }
    requires cause { Settled (length heap.old.names) cause }
    ensures work { Does world.now heap.old (λ s names w. calls.with_arguments s.classes w rule.SetMessageAndCause (name_of s.heads names at) (held s.heads names text) (held s.heads names cause)) heap.new result }
    ensures names { heap.new.names ≡ heap.old.names }
    ensures filled { (s : Setting) → AreFilled heap.old s → AreFilled heap.new s }
    ensures changes { ChangesBy heap.old heap.new result }
{
    if !is_text(heap, world, text) || !is_cause(heap, world, cause) {
        return Work::Misuses;
    }
    write_reference(heap, world, at, HiddenField::Message, text);
    write_reference(heap, world, at, HiddenField::Cause, cause);
    Work::Results(None, None)
}

// A new object of the class, which has no text; it is the last. A call that fails leaves the heap as it
// was.
fn make_exception(
    alloc: Global,
    heap: &mut Heap,
    world: &World,
    class: ClassId,
) -> Result<Ref, AllocError>
    requires class { class.0 < length world.now.heads }
    requires plain { is_text_class (name_at world.now.heads class.0) ≡ false }
    ensures made { IfOk result (λ at. MakesOf world.now class.0 heap.old heap.new at) }
    ensures filled { OnOk result (KeepsFilled world.now class.0 heap.old heap.new) }
    ensures last { IfOk result (λ at. IsLast heap.old heap.new at) }
    ensures names { IsLonger heap.old heap.new }
    ensures err { OnErr result (heap.new ≡ heap.old) }
{
    let _count = heap.count();
    let types = field_types(alloc, world, class)?;
    make(heap, class, false, types.as_slice())
}

/// Throws a new ClassNotFoundException with the name as its message. A call that fails leaves the heap
/// as it was.
pub(crate) fn not_found(
    alloc: Global,
    heap: &mut Heap,
    world: &World,
    name: Value,
) -> Result<Work, AllocError>
    requires library { HasLibrary world.now }
    requires name { Settled (length heap.old.names) name }
    ensures work { IfOk result (λ work. AreWhole world.now heap.old → Does world.now heap.old (λ s names w. calls.not_found s.classes w (held s.heads names name)) heap.new work) }
    ensures names { IsLonger heap.old heap.new }
    ensures filled { IfOk result (λ work. StaysWhole world.now heap.old heap.new) }
    ensures changes { IfOk result (λ work. ChangesBy heap.old heap.new work) }
    ensures err { OnErr result (heap.new ≡ heap.old) }
{
    let class = class_there(world, b"java/lang/ClassNotFoundException");
    let at = make_exception(alloc, heap, world, class)?;
    write_reference(heap, world, at, HiddenField::Message, name);
    Ok(Work::Throws(at))
}
