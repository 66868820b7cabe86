//! What a method of the library does, by its rule.

ghost use Rattle.std.specs.Prelude.{◌≡◌, ◌<◌, ◌∷◌, [], true, map, length, slice_get, Some, None, IfOk, OnErr};
ghost use Rattle.std.specs.List.{AllByRecursion};
ghost use Rattle.std.specs.Option.{option_map, unwrap_or};
ghost use Rattle.boot_library.specs.declared.rule.LibraryRule.TheVariants as rule;
ghost use Rattle.class_world.specs.Tables.{Known};
ghost use Rattle.class_machine.specs.LibraryCalls as calls;
ghost use Rattle.machine_values.specs.declared.values.Value.TheVariants.{Null};
ghost use Rattle.machine_values.specs.Standing.{name_of, held, Settled};
ghost use Rattle.machine_values.specs.States.{is_known_object};
ghost use Rattle.machine_values.specs.Things.{Things};
ghost use Rattle.machine_requests.specs.Replies.{IsLonger};
ghost use Rattle.machine_rules.specs.Fields.{AreWhole, StaysWhole};
ghost use Rattle.machine_rules.specs.Filling.{FillsStill};
ghost use Rattle.machine_rules.specs.Library.{HasLibrary};
ghost use Rattle.machine_rules.specs.Ruling.{ruled};
ghost use Rattle.machine_rules.specs.Works.{Does, DoesWhole, ChangesBy};

use crate::boxes::{box_hash, box_of, same_box, set_box, unbox};
use crate::buffering::fill_buffer;
use crate::class_objects::{for_name, get_class, hash_of};
use crate::describing::{copy, describe_box, describe_throwable, itself};
use crate::exceptions::{cause, message, set_message, set_message_and_cause};
use crate::identity::{class_name, describe, identity_hash, same_object};
use crate::printing::{append_value, print_line, print_value, value_of};
use crate::strings::{char_at, concat, hash_of_text, same_text, substring, text_length};
use crate::work::Work;
use boot_library::LibraryRule;
use class_world::World;
use machine_values::{Heap, Ref, Value};
use std::alloc::{AllocError, Global};

// The unit of the text at an index.
fn char_of(heap: &Heap, at: Ref, index: Value) -> Work
    requires { at.0 < length heap.now.names }
    ensures { (k : Known) → Does k heap.now (λ s names w. calls.with_argument s.classes w rule.CharAt (name_of s.heads names at) (held s.heads names index)) heap.now result }
{
    match index {
        Value::Int(place) => char_at(heap, at, place),
        _ => Work::Misuses,
    }
}

// A new String of the units from one place to another.
fn part_of(
    alloc: Global,
    heap: &mut Heap,
    world: &World,
    at: Ref,
    begin: Value,
    end: Value,
) -> Result<Work, AllocError>
    requires library { HasLibrary world.now }
    requires at { at.0 < length heap.old.names }
    ensures work { IfOk result (λ work. Does world.now heap.old (λ s names w. calls.with_arguments s.classes w rule.Substring (name_of s.heads names at) (held s.heads names begin) (held s.heads names end)) heap.new work) }
    ensures names { IsLonger heap.old heap.new }
    ensures filled { IfOk result (λ work. FillsStill world.now heap.old heap.new) }
    ensures changes { IfOk result (λ work. ChangesBy heap.old heap.new work) }
    ensures err { OnErr result (heap.new ≡ heap.old) }
{
    match (begin, end) {
        (Value::Int(from), Value::Int(to)) => substring(alloc, heap, world, at, from, to),
        _ => Ok(Work::Misuses),
    }
}

// The run ends with the status.
fn exit(status: Value) -> Work
    ensures { (k : Known) (things : Things) → Does k things (λ s names w. calls.by_static_rule s.classes w rule.Exit (held s.heads names status ∷ [])) things result }
{
    match status {
        Value::Int(number) => Work::Exits(number),
        _ => Work::Misuses,
    }
}

// A method of an object, without further arguments.
fn on_object(
    alloc: Global,
    heap: &mut Heap,
    world: &World,
    rule: LibraryRule,
    at: Ref,
) -> Result<Work, AllocError>
    requires library { HasLibrary world.now }
    requires at { at.0 < length heap.old.names }
    ensures work { IfOk result (λ work. Does world.now heap.old (λ s names w. calls.on_object s.classes w rule (name_of s.heads names at)) heap.new work) }
    ensures names { IsLonger heap.old heap.new }
    ensures filled { IfOk result (λ work. FillsStill world.now heap.old heap.new) }
    ensures changes { IfOk result (λ work. ChangesBy heap.old heap.new work) }
    ensures err { OnErr result (heap.new ≡ heap.old) }
{
    match rule {
        LibraryRule::DoNothing => Ok(Work::Results(None, None)),
        LibraryRule::IdentityHash => Ok(identity_hash(heap, at)),
        LibraryRule::Describe => describe(alloc, heap, world, at),
        LibraryRule::GetClass => get_class(alloc, heap, world, at),
        LibraryRule::ClassName => class_name(alloc, heap, world, at),
        LibraryRule::Length => Ok(text_length(heap, at)),
        LibraryRule::TextHash => Ok(hash_of_text(heap, at)),
        LibraryRule::Itself => Ok(itself(heap, at)),
        LibraryRule::Copy => copy(alloc, heap, world, at),
        LibraryRule::Message => Ok(message(heap, world, at)),
        LibraryRule::Cause => Ok(cause(heap, world, at)),
        LibraryRule::DescribeThrowable => describe_throwable(alloc, heap, world, at),
        LibraryRule::PrintLine => print_line(alloc, heap, world, at),
        LibraryRule::Unbox(boxed) => Ok(unbox(heap, world, at, boxed)),
        LibraryRule::BoxHash(boxed) => Ok(box_hash(heap, world, at, boxed)),
        LibraryRule::DescribeBox(boxed) => describe_box(alloc, heap, world, at, boxed),
        _ => Ok(Work::Misuses),
    }
}

// A method of an object, with one argument.
fn with_argument(
    alloc: Global,
    heap: &mut Heap,
    world: &World,
    rule: LibraryRule,
    at: Ref,
    value: Value,
) -> Result<Work, AllocError>
    requires library { HasLibrary world.now }
    requires at { at.0 < length heap.old.names }
    requires value { Settled (length heap.old.names) value }
    ensures work { IfOk result (λ work. AreWhole world.now heap.old → Does world.now heap.old (λ s names w. calls.with_argument s.classes w rule (name_of s.heads names at) (held s.heads names value)) heap.new work) }
    ensures names { IsLonger heap.old heap.new }
    ensures filled { IfOk result (λ work. StaysWhole world.now heap.old heap.new) }
    ensures changes { IfOk result (λ work. ChangesBy heap.old heap.new work) }
    ensures err { OnErr result (heap.new ≡ heap.old) }
{
    match rule {
        LibraryRule::SameObject => Ok(same_object(at, value)),
        LibraryRule::CharAt => Ok(char_of(heap, at, value)),
        LibraryRule::SameText => Ok(same_text(heap, world, at, value)),
        LibraryRule::Concat => concat(alloc, heap, world, at, value),
        LibraryRule::FillBuffer => fill_buffer(alloc, heap, world, at, value),
        LibraryRule::Append(how) => append_value(alloc, heap, world, how, at, value),
        LibraryRule::SetMessage => Ok(set_message(heap, world, at, value)),
        LibraryRule::Print { how, line } => print_value(alloc, heap, world, how, line, at, value),
        LibraryRule::SetBox(boxed) => Ok(set_box(heap, world, boxed, at, value)),
        LibraryRule::SameBox(boxed) => Ok(same_box(heap, world, boxed, at, value)),
        _ => Ok(Work::Misuses),
    }
}

// A method of an object, with two arguments.
fn with_arguments(
    alloc: Global,
    heap: &mut Heap,
    world: &World,
    rule: LibraryRule,
    at: Ref,
    value: Value,
    other: Value,
) -> Result<Work, AllocError>
    requires library { HasLibrary world.now }
    requires at { at.0 < length heap.old.names }
    requires value { Settled (length heap.old.names) value }
    requires other { Settled (length heap.old.names) other }
    ensures work { IfOk result (λ work. AreWhole world.now heap.old → Does world.now heap.old (λ s names w. calls.with_arguments s.classes w rule (name_of s.heads names at) (held s.heads names value) (held s.heads names other)) heap.new work) }
    ensures names { IsLonger heap.old heap.new }
    ensures filled { IfOk result (λ work. StaysWhole world.now heap.old heap.new) }
    ensures changes { IfOk result (λ work. ChangesBy heap.old heap.new work) }
    ensures err { OnErr result (heap.new ≡ heap.old) }
{
    match rule {
        LibraryRule::Substring => part_of(alloc, heap, world, at, value, other),
        LibraryRule::SetMessageAndCause => Ok(set_message_and_cause(heap, world, at, value, other)),
        _ => Ok(Work::Misuses),
    }
}

// A static method, which takes one argument.
fn static_with(
    alloc: Global,
    heap: &mut Heap,
    world: &World,
    rule: LibraryRule,
    value: Value,
) -> Result<Work, AllocError>
    requires library { HasLibrary world.now }
    requires value { Settled (length heap.old.names) value }
    ensures work { IfOk result (λ work. AreWhole world.now heap.old → Does world.now heap.old (λ s names w. calls.by_static_rule s.classes w rule (held s.heads names value ∷ [])) heap.new work) }
    ensures names { IsLonger heap.old heap.new }
    ensures filled { IfOk result (λ work. StaysWhole world.now heap.old heap.new) }
    ensures changes { IfOk result (λ work. ChangesBy heap.old heap.new work) }
    ensures err { OnErr result (heap.new ≡ heap.old) }
{
    match rule {
        LibraryRule::ForName => for_name(alloc, heap, world, value),
        LibraryRule::ValueOf(how) => value_of(alloc, heap, world, how, value),
        LibraryRule::Exit => Ok(exit(value)),
        LibraryRule::HashOf => Ok(hash_of(heap, value)),
        LibraryRule::BoxOf(boxed) => box_of(alloc, heap, world, boxed, value),
        _ => Ok(Work::Misuses),
    }
}

// A static method.
fn by_static_rule(
    alloc: Global,
    heap: &mut Heap,
    world: &World,
    rule: LibraryRule,
    given: &[Value],
) -> Result<Work, AllocError>
    requires library { HasLibrary world.now }
    requires given { AllByRecursion (Settled (length heap.old.names)) given.now }
    ensures work { IfOk result (λ work. AreWhole world.now heap.old → Does world.now heap.old (λ s names w. calls.by_static_rule s.classes w rule (map (held s.heads names) given.now)) heap.new work) }
    ensures names { IsLonger heap.old heap.new }
    ensures filled { IfOk result (λ work. StaysWhole world.now heap.old heap.new) }
    ensures changes { IfOk result (λ work. ChangesBy heap.old heap.new work) }
    ensures err { OnErr result (heap.new ≡ heap.old) }
{
    match given {
        [value] => static_with(alloc, heap, world, rule, *value),
        _ => Ok(Work::Misuses),
    }
}

// The only argument, or the first of two; null, where there is none.
fn only(given: &[Value]) -> Value
    ensures { result ≡ unwrap_or (slice_get given.now 0) Null }
{
    match given.get(0).copied() {
        Some(value) => value,
        None => Value::Null,
    }
}

// The first of two arguments.
fn first(given: &[Value]) -> Value
    ensures { result ≡ unwrap_or (slice_get given.now 0) Null }
{
    only(given)
}

// The second of two arguments.
fn second(given: &[Value]) -> Value
    ensures { result ≡ unwrap_or (slice_get given.now 1) Null }
{
    match given.get(1).copied() {
        Some(value) => value,
        None => Value::Null,
    }
}

// A method of an object.
fn by_object_rule(
    alloc: Global,
    heap: &mut Heap,
    world: &World,
    rule: LibraryRule,
    at: Ref,
    given: &[Value],
) -> Result<Work, AllocError>
    requires library { HasLibrary world.now }
    requires at { at.0 < length heap.old.names }
    requires given { AllByRecursion (Settled (length heap.old.names)) given.now }
    ensures work { IfOk result (λ work. AreWhole world.now heap.old → Does world.now heap.old (λ s names w. calls.by_rule s.classes w rule (name_of s.heads names at) (map (held s.heads names) given.now)) heap.new work) }
    ensures names { IsLonger heap.old heap.new }
    ensures filled { IfOk result (λ work. StaysWhole world.now heap.old heap.new) }
    ensures changes { IfOk result (λ work. ChangesBy heap.old heap.new work) }
    ensures err { OnErr result (heap.new ≡ heap.old) }
{
    match given {
        [] => on_object(alloc, heap, world, rule, at),
        [_] => with_argument(alloc, heap, world, rule, at, only(given)),
        [_, _] => with_arguments(alloc, heap, world, rule, at, first(given), second(given)),
        _ => Ok(Work::Misuses),
    }
}

/// What a call of a method of the library does, by the method's rule: of a static method without a
/// receiver. A call that fails leaves the heap as it was.
///
/// What the work made of the heap can be taken back where it gives no result: then at most objects were
/// added.
pub fn by_rule(
    alloc: Global,
    heap: &mut Heap,
    world: &World,
    rule: LibraryRule,
    receiver: Option<Ref>,
    given: &[Value],
) -> Result<Work, AllocError>
    requires library { HasLibrary world.now }
    requires receiver { is_known_object (length heap.old.names) receiver ≡ true }
    requires given { AllByRecursion (Settled (length heap.old.names)) given.now }
    ensures work { IfOk result (λ work. DoesWhole world.now heap.old (λ s names w. ruled s.classes w rule (option_map (name_of s.heads names) receiver) (map (held s.heads names) given.now)) heap.new work) }
    ensures names { IsLonger heap.old heap.new }
    ensures filled { IfOk result (λ work. StaysWhole world.now heap.old heap.new) }
    ensures changes { IfOk result (λ work. ChangesBy heap.old heap.new work) }
    ensures err { OnErr result (heap.new ≡ heap.old) }
{
    match receiver {
        None => by_static_rule(alloc, heap, world, rule, given),
        Some(at) => by_object_rule(alloc, heap, world, rule, at, given),
    }
}
