//! Texts of objects, and new Strings.

ghost use Rattle.std.specs.Prelude.{◌≡◌, ◌<◌, length, is_some, IfOk, OnErr};
ghost use Rattle.std.specs.Option.{option_map};
ghost use Rattle.machine_requests.specs.Replies.{IsLonger};
ghost use Rattle.machine_rules.specs.Filling.{FillsStill};
ghost use Rattle.machine_rules.specs.Library.{HasLibrary};
ghost use Rattle.machine_rules.specs.Texts.{text_at};
ghost use Rattle.machine_rules.specs.Works.{AddsText, Grows};

use crate::classes::string_class;
use class_world::World;
use machine_values::{Content, Heap, Name, Ref};
use std::alloc::AllocError;

/// The units of a String or a buffer.
pub(crate) fn text_at(heap: &Heap, at: Ref) -> Option<&[u16]>
    requires { at.0 < length heap.now.names }
    ensures { option_map (λ units. units.now) result ≡ text_at heap.now at.0 }
{
    match (heap.name(at), heap.content(at)) {
        (Name::Literal(units), _) => Some(units.as_slice()),
        (Name::Made(_, _), Content::Text(units)) => Some(units.as_slice()),
        _ => None,
    }
}

/// Whether the object is a String or a buffer.
pub(crate) fn has_text(heap: &Heap, at: Ref) -> bool
    requires { at.0 < length heap.now.names }
    ensures { result ≡ is_some (text_at heap.now at.0) }
{
    match text_at(heap, at) {
        Some(_) => true,
        None => false,
    }
}

/// A new String of these units. A call that fails leaves the heap as it was.
pub(crate) fn make_string(heap: &mut Heap, world: &World, units: &[u16]) -> Result<Ref, AllocError>
    requires { HasLibrary world.now }
    ensures made { IfOk result (λ at. AddsText world.now heap.old units.now heap.new at) }
    ensures grown { IfOk result (λ at. Grows heap.old heap.new) }
    ensures filled { IfOk result (λ at. FillsStill world.now heap.old heap.new) }
    ensures names { IsLonger heap.old heap.new }
    ensures err { OnErr result (heap.new ≡ heap.old) }
{
    heap.make_text(string_class(world), units)
}
