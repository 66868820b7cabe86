//! What prints, appends and gives texts of values: `PrintStream`, the buffers, and `String.valueOf`.

ghost use Rattle.std.specs.Prelude.{◌≡◌, ◌<◌, ◌∷◌, [], length, IfOk, OnErr};
ghost use Rattle.boot_library.specs.declared.rule.LibraryRule.TheVariants as rule;
ghost use Rattle.class_machine.specs.LibraryCalls as calls;
ghost use Rattle.machine_values.specs.declared.frames.Destination.TheVariants.{Prints, Gives};
ghost use Rattle.machine_values.specs.Standing.{name_of, held, Settled};
ghost use Rattle.machine_requests.specs.Replies.{IsLonger};
ghost use Rattle.machine_rules.specs.Filling.{FillsStill};
ghost use Rattle.machine_rules.specs.Library.{HasLibrary};
ghost use Rattle.machine_rules.specs.Works.{Does, ChangesBy};

use crate::finishing::finish_units;
use crate::spelling::spelled;
use crate::work::Work;
use boot_library::Spelling;
use class_world::World;
use machine_values::{Destination, Heap, Ref, Value};
use std::alloc::{AllocError, Global};

/// The value's text goes to the end of the buffer.
pub(crate) fn append_value(
    alloc: Global,
    heap: &mut Heap,
    world: &World,
    how: Spelling,
    at: Ref,
    value: Value,
) -> Result<Work, AllocError>
    requires library { HasLibrary world.now }
    requires at { at.0 < length heap.old.names }
    requires value { Settled (length heap.old.names) value }
    ensures work { IfOk result (λ work. Does world.now heap.old (λ s names w. calls.with_argument s.classes w (rule.Append how) (name_of s.heads names at) (held s.heads names value)) heap.new work) }
    ensures names { IsLonger heap.old heap.new }
    ensures filled { IfOk result (λ work. FillsStill world.now heap.old heap.new) }
    ensures changes { IfOk result (λ work. ChangesBy heap.old heap.new work) }
    ensures err { OnErr result (heap.new ≡ heap.old) }
{
    spelled(alloc, heap, world, how, value, Destination::Appends(at))
}

/// The value's text is printed, with a line feed or without.
pub(crate) fn print_value(
    alloc: Global,
    heap: &mut Heap,
    world: &World,
    how: Spelling,
    line: bool,
    at: Ref,
    value: Value,
) -> Result<Work, AllocError>
    requires library { HasLibrary world.now }
    requires at { at.0 < length heap.old.names }
    requires value { Settled (length heap.old.names) value }
    ensures work { IfOk result (λ work. Does world.now heap.old (λ s names w. calls.with_argument s.classes w (rule.Print how line) (name_of s.heads names at) (held s.heads names value)) heap.new work) }
    ensures names { IsLonger heap.old heap.new }
    ensures filled { IfOk result (λ work. FillsStill world.now heap.old heap.new) }
    ensures changes { IfOk result (λ work. ChangesBy heap.old heap.new work) }
    ensures err { OnErr result (heap.new ≡ heap.old) }
{
    spelled(alloc, heap, world, how, value, Destination::Prints(line))
}

/// A line feed is printed.
pub(crate) fn print_line(
    alloc: Global,
    heap: &mut Heap,
    world: &World,
    at: Ref,
) -> Result<Work, AllocError>
    requires library { HasLibrary world.now }
    requires at { at.0 < length heap.old.names }
    ensures work { IfOk result (λ work. Does world.now heap.old (λ s names w. calls.on_object s.classes w rule.PrintLine (name_of s.heads names at)) heap.new work) }
    ensures names { IsLonger heap.old heap.new }
    ensures filled { IfOk result (λ work. FillsStill world.now heap.old heap.new) }
    ensures changes { IfOk result (λ work. ChangesBy heap.old heap.new work) }
    ensures err { OnErr result (heap.new ≡ heap.old) }
{
    finish_units(alloc, heap, world, Destination::Prints(true), &[])
}

/// The value's text is given.
pub(crate) fn value_of(
    alloc: Global,
    heap: &mut Heap,
    world: &World,
    how: Spelling,
    value: Value,
) -> Result<Work, AllocError>
    requires library { HasLibrary world.now }
    requires value { Settled (length heap.old.names) value }
    ensures work { IfOk result (λ work. Does world.now heap.old (λ s names w. calls.by_static_rule s.classes w (rule.ValueOf how) (held s.heads names value ∷ [])) heap.new work) }
    ensures names { IsLonger heap.old heap.new }
    ensures filled { IfOk result (λ work. FillsStill world.now heap.old heap.new) }
    ensures changes { IfOk result (λ work. ChangesBy heap.old heap.new work) }
    ensures err { OnErr result (heap.new ≡ heap.old) }
{
    spelled(alloc, heap, world, how, value, Destination::Gives)
}
