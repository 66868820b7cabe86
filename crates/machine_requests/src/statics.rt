//! Static fields.

ghost use Rattle.std.specs.Prelude.{◌≡◌, ◌<◌, true, length, None, Some, slice_index_or, slice_set};
ghost use Rattle.std.specs.Option.{unwrap_or};
ghost use Rattle.class_file.specs.Pool.{Reference};
ghost use Rattle.class_machine.specs.Effect.{GetStatic, PutStatic};
ghost use Rattle.machine_values.specs.Standing.{held, Settled};
ghost use Rattle.machine_values.specs.Things.{Things};
ghost use Rattle.machine_requests.specs.Arrays.{kept_value};
ghost use Rattle.machine_requests.specs.Shares.{Others, Setting};
ghost use Rattle.machine_requests.specs.Replies.{IsAnswerWhere};
ghost use Rattle.machine_requests.specs.Statics.{is_of, read_reply, IsField, IsInitial, AreApart, with_statics};

use crate::elements::kept_value;
use crate::reply::Reply;
use aj_names::FieldId;
use class_machine::kinds::Element;
use machine_values::Value;
use sqlite_items::Items;

// Whether operands have the value for a field that holds such values.
fn is_of(element: Element, value: Value) -> bool
    ensures { result ≡ is_of element value }
{
    match element {
        Element::Long => matches!(value, Value::Long(_)),
        Element::Float => matches!(value, Value::Float(_)),
        Element::Double => matches!(value, Value::Double(_)),
        Element::Reference => matches!(value, Value::Null | Value::Reference(_)),
        _ => matches!(value, Value::Int(_)),
    }
}

// What was stored in the field.
fn stored_in(statics: &Items<Option<Value>>, field: FieldId) -> Option<Value>
    ensures { result ≡ slice_index_or statics.now field.0 None }
{
    match statics.get(field.0 as usize) {
        Some(stored) => *stored,
        None => None,
    }
}

// What was stored in the field, or else its initial value.
fn value_in(statics: &Items<Option<Value>>, field: FieldId, initial: Value) -> Value
    ensures { result ≡ unwrap_or (slice_index_or statics.now field.0 None) initial }
{
    match stored_in(statics, field) {
        Some(value) => value,
        None => initial,
    }
}

// The value, where operands have it for such a field.
fn read(element: Element, value: Value) -> Reply
    ensures { result ≡ read_reply (is_of element value) value }
{
    if is_of(element, value) {
        Reply::Gives(value)
    } else {
        Reply::Refuses
    }
}

/// The value of a static field that holds such values, with the value that it holds where none was
/// stored (JVMS 6, `getstatic`).
pub fn get_static(
    statics: &Items<Option<Value>>,
    field: FieldId,
    element: Element,
    initial: Value,
) -> Reply
    requires { field.0 < length statics.now }
    ensures { (things : Things) (others : Others) (r : Reference) → others.statics ≡ statics.now → Settled (length things.names) initial
        → IsAnswerWhere (λ s. IsField r field.0 element s × IsInitial things field.0 initial s) things others (λ s names. GetStatic r) things others result }
{
    read(element, value_in(statics, field, initial))
}

/// Gives a static field that holds such values another one (JVMS 6, `putstatic`).
pub fn put_static(
    statics: &mut Items<Option<Value>>,
    field: FieldId,
    element: Element,
    value: Value,
) -> Reply
    requires { field.0 < length statics.old }
    ensures len { length statics.new ≡ length statics.old }
    ensures answer { (things : Things) (others : Others) (r : Reference) → others.statics ≡ statics.old → Settled (length things.names) value
        → IsAnswerWhere (λ s. IsField r field.0 element s × AreApart (length others.statics) s) things others (λ s names. PutStatic r (held s.heads names value)) things (with_statics others statics.new) result }
{
    statics.set(field.0 as usize, Some(kept_value(element, value)));
    Reply::Done
}
