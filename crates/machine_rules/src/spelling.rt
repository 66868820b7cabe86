//! Values as texts.

ghost use Rattle.std.specs.Prelude.{◌≡◌, ◌≢◌, ◌<◌, true, length, IfOk, OnErr};
ghost use Rattle.std.specs.Option.{option_map};
ghost use Rattle.boot_library.specs.declared.rule.Spelling.TheVariants.{OfObject};
ghost use Rattle.class_machine.specs.Descriptors as descriptors;
ghost use Rattle.class_machine.specs.declared.kinds.Element.{Element};
ghost use Rattle.class_machine.specs.LibraryCalls as calls;
ghost use Rattle.machine_values.specs.Standing.{held, Settled};
ghost use Rattle.machine_values.specs.States.{is_known_destination};
ghost use Rattle.machine_requests.specs.Replies.{IsLonger};
ghost use Rattle.machine_rules.specs.Filling.{FillsStill};
ghost use Rattle.machine_rules.specs.Finishing.{destination_of};
ghost use Rattle.machine_rules.specs.Library.{HasLibrary};
ghost use Rattle.machine_rules.specs.Spelling.{number_text, plain_text};
ghost use Rattle.machine_rules.specs.Texts.{argument_at};
ghost use Rattle.machine_rules.specs.Works.{Does, ChangesBy};

use crate::arguments::{TextArgument, text_argument};
use crate::asking::ask_text;
use crate::finishing::finish_units;
use crate::numbers::{boolean_text, low_unit, put_bytes, put_decimal};
use crate::work::Work;
use boot_library::Spelling;
use class_world::World;
use machine_values::{Destination, Heap, Value};
use std::alloc::{AllocError, Global};

// The units of `null`.
const NULL: [u16; 4] = [110, 117, 108, 108];

// The lowest bit of an int, which says what boolean it is.
fn low_bit(n: i32) -> i32
    ensures { result ≡ descriptors.low_bits Element.Boolean n }
{
    (n.cast_unsigned() % 2) as i32
}

// The text of a number, a character or a boolean, where the value is one.
fn number_text(alloc: Global, how: Spelling, value: Value) -> Result<Option<Vec<u16>>, AllocError>
    ensures { IfOk result (λ text. option_map (λ units. units.items) text ≡ number_text how value) }
{
    let mut units = Vec::new(alloc);
    match (how, value) {
        (Spelling::OfInt, Value::Int(n)) => put_decimal(&mut units, i64::from(n))?,
        (Spelling::OfLong, Value::Long(n)) => put_decimal(&mut units, n)?,
        (Spelling::OfChar, Value::Int(n)) => units.push(low_unit(n))?,
        (Spelling::OfBoolean, Value::Int(n)) => put_bytes(&mut units, boolean_text(low_bit(n)))?,
        _ => return Ok(None),
    }
    Ok(Some(units))
}

// The units of an argument that is to be a String, or `null`; none of what is no String.
fn text_or_null(
    alloc: Global,
    heap: &Heap,
    world: &World,
    value: Value,
) -> Result<Option<Vec<u16>>, AllocError>
    requires { Settled (length heap.now.names) value }
    ensures { IfOk result (λ text. option_map (λ units. units.items) text ≡ option_map calls.text_or_null (argument_at world.now.heads heap.now value)) }
{
    let mut units = Vec::new(alloc);
    match text_argument(heap, world, value) {
        TextArgument::Units(text) => units.extend_from_slice(text)?,
        TextArgument::Nothing => put_bytes(&mut units, b"null")?,
        TextArgument::Other => return Ok(None),
    }
    Ok(Some(units))
}

// The text of a value, where it is one that is spelled so without a call.
fn plain_text(
    alloc: Global,
    heap: &Heap,
    world: &World,
    how: Spelling,
    value: Value,
) -> Result<Option<Vec<u16>>, AllocError>
    requires { Settled (length heap.now.names) value }
    ensures { IfOk result (λ text. option_map (λ units. units.items) text ≡ plain_text world.now.heads heap.now how value) }
{
    match how {
        Spelling::OfText => text_or_null(alloc, heap, world, value),
        _ => number_text(alloc, how, value),
    }
}

// What is done with what `toString` of an object gives, or with `null`.
fn spelled_object(
    alloc: Global,
    heap: &mut Heap,
    world: &World,
    value: Value,
    to: Destination,
) -> Result<Work, AllocError>
    requires library { HasLibrary world.now }
    requires value { Settled (length heap.old.names) value }
    requires to { is_known_destination (length heap.old.names) to ≡ true }
    ensures work { IfOk result (λ work. Does world.now heap.old (λ s names w. calls.spelled s.classes w OfObject (held s.heads names value) (destination_of s names to)) heap.new work) }
    ensures names { IsLonger heap.old heap.new }
    ensures filled { IfOk result (λ work. FillsStill world.now heap.old heap.new) }
    ensures changes { IfOk result (λ work. ChangesBy heap.old heap.new work) }
    ensures err { OnErr result (heap.new ≡ heap.old) }
{
    match value {
        Value::Reference(at) => ask_text(alloc, heap, world, at, to),
        Value::Null => finish_units(alloc, heap, world, to, &NULL),
        _ => Ok(Work::Misuses),
    }
}

// What is done with the text of a value that is spelled without a call.
fn spelled_plain(
    alloc: Global,
    heap: &mut Heap,
    world: &World,
    how: Spelling,
    value: Value,
    to: Destination,
) -> Result<Work, AllocError>
    requires library { HasLibrary world.now }
    requires plain { how ≢ OfObject }
    requires value { Settled (length heap.old.names) value }
    requires to { is_known_destination (length heap.old.names) to ≡ true }
    ensures work { IfOk result (λ work. Does world.now heap.old (λ s names w. calls.spelled s.classes w how (held s.heads names value) (destination_of s names to)) heap.new work) }
    ensures names { IsLonger heap.old heap.new }
    ensures filled { IfOk result (λ work. FillsStill world.now heap.old heap.new) }
    ensures changes { IfOk result (λ work. ChangesBy heap.old heap.new work) }
    ensures err { OnErr result (heap.new ≡ heap.old) }
{
    match plain_text(alloc, heap, world, how, value)? {
        Some(units) => finish_units(alloc, heap, world, to, units.as_slice()),
        None => Ok(Work::Misuses),
    }
}

/// What is done with the text of a value.
pub(crate) fn spelled(
    alloc: Global,
    heap: &mut Heap,
    world: &World,
    how: Spelling,
    value: Value,
    to: Destination,
) -> Result<Work, AllocError>
    requires library { HasLibrary world.now }
    requires value { Settled (length heap.old.names) value }
    requires to { is_known_destination (length heap.old.names) to ≡ true }
    ensures work { IfOk result (λ work. Does world.now heap.old (λ s names w. calls.spelled s.classes w how (held s.heads names value) (destination_of s names to)) heap.new work) }
    ensures names { IsLonger heap.old heap.new }
    ensures filled { IfOk result (λ work. FillsStill world.now heap.old heap.new) }
    ensures changes { IfOk result (λ work. ChangesBy heap.old heap.new work) }
    ensures err { OnErr result (heap.new ≡ heap.old) }
{
    match how {
        Spelling::OfObject => spelled_object(alloc, heap, world, value, to),
        _ => spelled_plain(alloc, heap, world, how, value, to),
    }
}
