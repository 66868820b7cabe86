//! What Strings and buffers do.

ghost use Rattle.std.specs.Prelude.{◌≡◌, ◌<◌, ◌++◌, true, length, IfOk, OnErr};
ghost use Rattle.std.specs.Option.{option_map};
ghost use Rattle.boot_library.specs.declared.rule.LibraryRule.TheVariants as rule;
ghost use Rattle.class_world.specs.Tables.{Known};
ghost use Rattle.class_machine.specs.LibraryCalls as calls;
ghost use Rattle.machine_values.specs.Standing.{name_of, held, Settled};
ghost use Rattle.machine_requests.specs.Replies.{IsLonger};
ghost use Rattle.machine_rules.specs.Filling.{FillsStill};
ghost use Rattle.machine_rules.specs.Library.{HasLibrary};
ghost use Rattle.machine_rules.specs.Texts.{units_at, unit_in, same_units_as, truth_value, part_in};
ghost use Rattle.machine_rules.specs.Works.{Does, ChangesBy};

use crate::arguments::{TextArgument, text_argument};
use crate::classes::is_string;
use crate::numbers::{count_int, text_hash};
use crate::objects::{make_string, text_at};
use crate::work::Work;
use class_machine::kinds::Fault;
use class_world::World;
use machine_values::{Heap, Ref, Value};
use std::alloc::{AllocError, Global};

/// The units of an object; none of what has no text.
pub(crate) fn units_at(heap: &Heap, at: Ref) -> &[u16]
    requires { at.0 < length heap.now.names }
    ensures { result.now ≡ units_at heap.now at.0 }
{
    match text_at(heap, at) {
        Some(units) => units,
        None => &[],
    }
}

/// Gives a new String of these units.
pub(crate) fn give_text(heap: &mut Heap, world: &World, units: &[u16]) -> Result<Work, AllocError>
    requires { HasLibrary world.now }
    ensures work { IfOk result (λ work. Does world.now heap.old (λ s names w. calls.new_text units.now w) heap.new work) }
    ensures names { IsLonger heap.old heap.new }
    ensures filled { IfOk result (λ work. FillsStill world.now heap.old heap.new) }
    ensures changes { IfOk result (λ work. ChangesBy heap.old heap.new work) }
    ensures err { OnErr result (heap.new ≡ heap.old) }
{
    let at = make_string(heap, world, units)?;
    Ok(Work::Results(None, Some(Value::Reference(at))))
}

/// How many units the text has.
pub(crate) fn text_length(heap: &Heap, at: Ref) -> Work
    requires { at.0 < length heap.now.names }
    ensures { (k : Known) → Does k heap.now (λ s names w. calls.on_object s.classes w rule.Length (name_of s.heads names at)) heap.now result }
{
    Work::Results(
        None,
        Some(Value::Int(count_int(units_at(heap, at).len() as u64))),
    )
}

/// The hash of the text.
pub(crate) fn hash_of_text(heap: &Heap, at: Ref) -> Work
    requires { at.0 < length heap.now.names }
    ensures { (k : Known) → Does k heap.now (λ s names w. calls.on_object s.classes w rule.TextHash (name_of s.heads names at)) heap.now result }
{
    Work::Results(None, Some(Value::Int(text_hash(units_at(heap, at)))))
}

// The unit at an index.
fn unit_in(units: &[u16], index: i32) -> Option<u16>
    ensures { result ≡ unit_in units.now index }
{
    if index < 0 {
        return None;
    }
    units.get(index as usize).copied()
}

/// The unit of the text at an index.
pub(crate) fn char_at(heap: &Heap, at: Ref, index: i32) -> Work
    requires { at.0 < length heap.now.names }
    ensures { (k : Known) → Does k heap.now (λ s names w. calls.char_in w (calls.units_in w (name_of s.heads names at)) index) heap.now result }
{
    match unit_in(units_at(heap, at), index) {
        Some(unit) => Work::Results(None, Some(Value::Int(i32::from(unit)))),
        None => Work::Faults(Fault::StringIndex),
    }
}

/// A boolean as an int.
pub(crate) fn truth(is: bool) -> Value
    ensures { result ≡ truth_value is }
{
    if is { Value::Int(1) } else { Value::Int(0) }
}

// Whether the value is a String of these units.
fn is_same_text(heap: &Heap, world: &World, units: &[u16], other: Value) -> bool
    requires { Settled (length heap.now.names) other }
    ensures { result ≡ same_units_as world.now.heads heap.now units.now other }
{
    match other {
        Value::Reference(at) => is_string(heap, world, at) && units == units_at(heap, at),
        _ => false,
    }
}

/// Whether the value is a String of the same units.
pub(crate) fn same_text(heap: &Heap, world: &World, at: Ref, other: Value) -> Work
    requires at { at.0 < length heap.now.names }
    requires other { Settled (length heap.now.names) other }
    ensures { Does world.now heap.now (λ s names w. calls.with_argument s.classes w rule.SameText (name_of s.heads names at) (held s.heads names other)) heap.now result }
{
    Work::Results(
        None,
        Some(truth(is_same_text(heap, world, units_at(heap, at), other))),
    )
}

// Two texts, one behind the other.
fn joined(alloc: Global, units: &[u16], more: &[u16]) -> Result<Vec<u16>, AllocError>
    ensures { IfOk result (λ all. all.items ≡ units.now ++ more.now) }
{
    let mut all = Vec::from_slice(alloc, units)?;
    all.extend_from_slice(more)?;
    Ok(all)
}

/// A new String of the object's units and the argument's.
pub(crate) fn concat(
    alloc: Global,
    heap: &mut Heap,
    world: &World,
    at: Ref,
    other: Value,
) -> Result<Work, AllocError>
    requires library { HasLibrary world.now }
    requires at { at.0 < length heap.old.names }
    requires other { Settled (length heap.old.names) other }
    ensures work { IfOk result (λ work. Does world.now heap.old (λ s names w. calls.with_argument s.classes w rule.Concat (name_of s.heads names at) (held s.heads names other)) heap.new work) }
    ensures names { IsLonger heap.old heap.new }
    ensures filled { IfOk result (λ work. FillsStill world.now heap.old heap.new) }
    ensures changes { IfOk result (λ work. ChangesBy heap.old heap.new work) }
    ensures err { OnErr result (heap.new ≡ heap.old) }
{
    let all = match text_argument(heap, world, other) {
        TextArgument::Units(more) => joined(alloc, units_at(heap, at), more)?,
        TextArgument::Nothing => return Ok(Work::Faults(Fault::NullPointer)),
        TextArgument::Other => return Ok(Work::Misuses),
    };
    give_text(heap, world, all.as_slice())
}

// The units from one place to another, where there are such.
fn part(units: &[u16], begin: i32, end: i32) -> Option<&[u16]>
    ensures { option_map (λ part. part.now) result ≡ part_in units.now begin end }
{
    if begin < 0 || end < begin {
        return None;
    }
    units.get(begin as usize..end as usize)
}

/// A new String of the units from one place to another.
pub(crate) fn substring(
    alloc: Global,
    heap: &mut Heap,
    world: &World,
    at: Ref,
    begin: i32,
    end: i32,
) -> Result<Work, AllocError>
    requires library { HasLibrary world.now }
    requires at { at.0 < length heap.old.names }
    ensures work { IfOk result (λ work. Does world.now heap.old (λ s names w. calls.substring w (calls.units_in w (name_of s.heads names at)) begin end) heap.new work) }
    ensures names { IsLonger heap.old heap.new }
    ensures filled { IfOk result (λ work. FillsStill world.now heap.old heap.new) }
    ensures changes { IfOk result (λ work. ChangesBy heap.old heap.new work) }
    ensures err { OnErr result (heap.new ≡ heap.old) }
{
    let units = match part(units_at(heap, at), begin, end) {
        Some(units) => Vec::from_slice(alloc, units)?,
        None => return Ok(Work::Faults(Fault::StringIndex)),
    };
    give_text(heap, world, units.as_slice())
}
