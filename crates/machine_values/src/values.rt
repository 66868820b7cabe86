//! Values.

ghost use Rattle.std.specs.Prelude.{◌≡◌};
ghost use Rattle.machine_values.specs.First.{first_value, first_element};

use aj_names::{Base, ClassId, FieldType};

/// An object or array, by its place in the heap.
#[derive(Clone, Copy, Debug, PartialEq, Eq, PartialOrd, Ord, Hash)]
pub struct Ref(pub u32);

/// What an operand, a local, a field or an element holds (JVMS 3.3, 3.4, 3.11.1).
#[derive(Clone, Copy, Debug)]
pub enum Value {
    Int(i32),
    Long(i64),
    /// The bits of a float.
    Float(u32),
    /// The bits of a double.
    Double(u64),
    Null,
    Reference(Ref),
    /// An object of the class that `new` has announced and that isn't made yet. Tokens are numbered in
    /// their frame.
    Token(ClassId, u64),
    /// Where a subroutine returns to, in the code of the frame (JVMS 3.3.3).
    ReturnAddress(u32),
}

/// What a local holds. A long or a double takes two (JVMS 3.6.1).
#[derive(Clone, Copy, Debug)]
pub enum Local {
    /// Nothing was stored yet.
    Unset,
    Holds(Value),
    /// The second half of the long or double before it.
    Second,
}

impl Default for Value {
    fn default() -> Value {
        Value::Null
    }
}

impl Default for Local {
    fn default() -> Local {
        Local::Unset
    }
}

fn first_of_base(base: &Base) -> Value
    ensures { result ≡ first_value (record { base = base.now; dims = 0 }) }
{
    match base {
        Base::Long => Value::Long(0),
        Base::Float => Value::Float(0),
        Base::Double => Value::Double(0),
        Base::Class(_) => Value::Null,
        _ => Value::Int(0),
    }
}

/// What a field of the type holds at first (JVMS 2.5.1).
pub(crate) fn first_value(field: &FieldType) -> Value
    ensures { result ≡ first_value field.now }
{
    if field.dims > 0 {
        return Value::Null;
    }
    first_of_base(&field.base)
}

/// What an element of an array of the type holds at first (JVMS 2.15).
pub(crate) fn first_element(array: &FieldType) -> Value
    ensures { result ≡ first_element array.now }
{
    if array.dims > 1 {
        return Value::Null;
    }
    first_of_base(&array.base)
}
