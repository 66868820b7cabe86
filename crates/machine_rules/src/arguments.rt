//! Arguments that are to be Strings.

ghost use Rattle.std.specs.Prelude.{◌≡◌, true, length};
ghost use Rattle.machine_values.specs.Standing.{Settled};
ghost use Rattle.machine_rules.specs.Texts.{argument_at, argument_view};

use crate::classes::is_string;
use crate::objects::text_at;
use class_world::World;
use machine_values::{Heap, Value};

/// An argument that is to be a String, or null.
#[derive(Drop)]
pub(crate) enum TextArgument<'a> {
    /// Null, or a String that holds no units.
    Nothing,
    Units(&'a [u16]),
    /// No String.
    Other,
}

/// The argument as a text.
pub(crate) fn text_argument<'a>(heap: &'a Heap, world: &World, value: Value) -> TextArgument<'a>
    requires { Settled (length heap.now.names) value }
    ensures { argument_view result ≡ argument_at world.now.heads heap.now value }
{
    match value {
        Value::Null => TextArgument::Nothing,
        Value::Reference(at) => {
            if !is_string(heap, world, at) {
                return TextArgument::Other;
            }
            match text_at(heap, at) {
                Some(units) => TextArgument::Units(units),
                None => TextArgument::Nothing,
            }
        }
        _ => TextArgument::Other,
    }
}
