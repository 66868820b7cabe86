//! What objects hold.

ghost use Rattle.std.specs.Prelude.{◌≡◌, ◌++◌, ◌<◌, [], Some, true, length, slice_get, slice_set, is_some, OnOk, OnErr};
ghost use Rattle.std.specs.Option.{unwrap_or};
ghost use Rattle.machine_values.specs.declared.content.Content.TheVariants.{Values, Text};
ghost use Rattle.machine_values.specs.Things.{values_in, text_in};

use crate::fields::Fields;
use crate::units::Units;
use crate::values::Value;
use std::alloc::AllocError;

/// What an object holds.
#[derive(Drop)]
pub enum Content {
    /// The fields of an instance, those of its class and of its superclasses, or the elements of an
    /// array.
    Values(Fields),
    /// The units of a String, a StringBuffer or a StringBuilder.
    Text(Units),
    /// No more than the name says: the String of a literal, and the object that stands for a class.
    Fixed,
}

impl Content {
    pub(crate) fn len(&self) -> u32
        ensures { result ≡ length (values_in self.now) }
    {
        match self {
            Content::Values(fields) => fields.len(),
            _ => 0,
        }
    }

    pub(crate) fn load(&self, index: u32) -> Value
        requires { index < length (values_in self.now) }
        ensures { slice_get (values_in self.now) index ≡ Some result }
    {
        match self {
            Content::Values(fields) => fields.get(index),
            _ => unreachable!(),
        }
    }

    pub(crate) fn store(&mut self, index: u32, value: Value)
        requires { index < length (values_in self.old) }
        ensures { self.new ≡ Values (slice_set (values_in self.old) index value) }
    {
        match self {
            Content::Values(fields) => fields.set(index, value),
            _ => unreachable!(),
        }
    }

    pub(crate) fn append(&mut self, units: &[u16]) -> Result<(), AllocError>
        requires { is_some (text_in self.old) ≡ true }
        ensures ok { OnOk result (self.new ≡ Text (unwrap_or (text_in self.old) [] ++ units.now)) }
        ensures err { OnErr result (self.new ≡ self.old) }
    {
        match self {
            Content::Text(text) => text.append(units),
            _ => unreachable!(),
        }
    }
}
