//! What the `toString` of Strings, buffers, exceptions and boxes gives.

ghost use Rattle.std.specs.Prelude.{◌≡◌, ◌<◌, length, IfOk, OnErr};
ghost use Rattle.boot_library.specs.declared.rule.LibraryRule.TheVariants as rule;
ghost use Rattle.class_world.specs.Tables.{Known};
ghost use Rattle.class_machine.specs.LibraryCalls as calls;
ghost use Rattle.machine_values.specs.Standing.{name_of};
ghost use Rattle.machine_requests.specs.Replies.{IsLonger};
ghost use Rattle.machine_rules.specs.Filling.{FillsStill};
ghost use Rattle.machine_rules.specs.Library.{HasLibrary};
ghost use Rattle.machine_rules.specs.Works.{Does, ChangesBy};

use crate::asking::{ask_message, finish_ruled};
use crate::work::Work;
use boot_library::{LibraryRule, Primitive};
use class_world::World;
use machine_values::{Destination, Heap, Ref, Value};
use std::alloc::{AllocError, Global};

/// A String gives itself.
pub(crate) fn itself(heap: &Heap, at: Ref) -> Work
    requires { at.0 < length heap.now.names }
    ensures { (k : Known) → Does k heap.now (λ s names w. calls.on_object s.classes w rule.Itself (name_of s.heads names at)) heap.now result }
{
    Work::Results(None, Some(Value::Reference(at)))
}

/// A buffer gives a new String of its units.
pub(crate) fn copy(
    alloc: Global,
    heap: &mut Heap,
    world: &World,
    at: Ref,
) -> Result<Work, AllocError>
    requires library { HasLibrary world.now }
    requires at { at.0 < length heap.old.names }
    ensures work { IfOk result (λ work. Does world.now heap.old (λ s names w. calls.on_object s.classes w rule.Copy (name_of s.heads names at)) heap.new work) }
    ensures names { IsLonger heap.old heap.new }
    ensures filled { IfOk result (λ work. FillsStill world.now heap.old heap.new) }
    ensures changes { IfOk result (λ work. ChangesBy heap.old heap.new work) }
    ensures err { OnErr result (heap.new ≡ heap.old) }
{
    finish_ruled(
        alloc,
        heap,
        world,
        LibraryRule::Copy,
        at,
        Destination::Gives,
    )
}

/// A box gives a new String of the text of what it holds.
pub(crate) fn describe_box(
    alloc: Global,
    heap: &mut Heap,
    world: &World,
    at: Ref,
    boxed: Primitive,
) -> Result<Work, AllocError>
    requires library { HasLibrary world.now }
    requires at { at.0 < length heap.old.names }
    ensures work { IfOk result (λ work. Does world.now heap.old (λ s names w. calls.on_object s.classes w (rule.DescribeBox boxed) (name_of s.heads names at)) heap.new work) }
    ensures names { IsLonger heap.old heap.new }
    ensures filled { IfOk result (λ work. FillsStill world.now heap.old heap.new) }
    ensures changes { IfOk result (λ work. ChangesBy heap.old heap.new work) }
    ensures err { OnErr result (heap.new ≡ heap.old) }
{
    let rule = LibraryRule::DescribeBox(boxed);
    finish_ruled(alloc, heap, world, rule, at, Destination::Gives)
}

/// An exception gives a new String of its class and of what its `getMessage` gives.
pub(crate) fn describe_throwable(
    alloc: Global,
    heap: &mut Heap,
    world: &World,
    at: Ref,
) -> Result<Work, AllocError>
    requires library { HasLibrary world.now }
    requires at { at.0 < length heap.old.names }
    ensures work { IfOk result (λ work. Does world.now heap.old (λ s names w. calls.on_object s.classes w rule.DescribeThrowable (name_of s.heads names at)) heap.new work) }
    ensures names { IsLonger heap.old heap.new }
    ensures filled { IfOk result (λ work. FillsStill world.now heap.old heap.new) }
    ensures changes { IfOk result (λ work. ChangesBy heap.old heap.new work) }
    ensures err { OnErr result (heap.new ≡ heap.old) }
{
    ask_message(alloc, heap, world, at, Destination::Gives)
}
