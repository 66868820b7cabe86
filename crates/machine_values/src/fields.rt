//! The fields of an object, or the elements of an array.

ghost use Rattle.std.specs.Prelude.{◌≡◌, ◌<◌, ◌^◌, [], Some, length, map, replicate, slice_get, slice_set, IfOk};
ghost use Rattle.machine_values.specs.First.{first_value};

use crate::values::{Value, first_value};
use aj_names::FieldType;
use std::alloc::{AllocError, Global};
use std::marker::Model;

/// The values of an object's fields or of an array's elements, in their order. There are fewer than
/// 2^32.
#[derive(Drop)]
pub struct Fields {
    values: Vec<Value>,
}

impl Model for Fields {
    ghost use Rattle.std.specs.Prelude.{List, ◌<◌, ◌^◌, length};
    ghost use Rattle.machine_values.specs.declared.values.Value.{Value as Held};

    ghost Value = { List Held };

    ghost view = { λ f. f.values.items };

    ghost invariant = { λ f. length f.values.items < 2 ^ 32 };
}

// The most values that an object has.
const MOST: usize = 4294967295;

impl Fields {
    /// Fields of these types, with the first values of their types (JVMS 2.5.1).
    pub(crate) fn first(alloc: Global, types: &[FieldType]) -> Result<Fields, AllocError>
        ensures { IfOk result (λ fields. fields ≡ map first_value types.now) }
    {
        if types.len() > MOST {
            return Err(AllocError);
        }
        let mut values = Vec::new(alloc);
        for field in types {
            values.push(first_value(field))?;
        }
        Ok(Fields { values })
    }

    /// So many elements of this value.
    pub(crate) fn repeat(alloc: Global, value: Value, count: u32) -> Result<Fields, AllocError>
        ensures { IfOk result (λ fields. fields ≡ replicate count value) }
    {
        let values = vec![in alloc; value; count as usize]?;
        Ok(Fields { values })
    }

    /// How many values there are.
    pub fn len(&self) -> u32
        ensures { result ≡ length self.now }
    {
        self.values.len() as u32
    }

    /// The values, in their order.
    pub fn as_slice(&self) -> &[Value]
        ensures { result.now ≡ self.now }
    {
        self.values.as_slice()
    }

    /// The value of that number, from 0 on.
    pub fn get(&self, index: u32) -> Value
        requires { index < length self.now }
        ensures { slice_get self.now index ≡ Some result }
    {
        self.values[index as usize]
    }

    /// Another value at that number.
    pub(crate) fn set(&mut self, index: u32, value: Value)
        requires { index < length self.old }
        ensures { self.new ≡ slice_set self.old index value }
    {
        self.values[index as usize] = value;
    }
}
