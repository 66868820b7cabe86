//! Casts and tests of types.

ghost use Rattle.std.specs.Prelude.{◌≡◌, List, ℕ, true, length};
ghost use Rattle.class_machine.specs.Effect.{Cast, IsInstance};
ghost use Rattle.machine_values.specs.States.{is_known_object};
ghost use Rattle.machine_values.specs.Things.{Things};
ghost use Rattle.machine_requests.specs.Shares.{Others};
ghost use Rattle.machine_requests.specs.Replies.{IsAnswerWhere, object as named};
ghost use Rattle.machine_requests.specs.Objects.{IsBelow};

use crate::reply::Reply;
use class_machine::kinds::Fault;
use machine_values::{Ref, Value};

/// The object itself, where it is one of the class, as `below` says; null is of each class (JVMS 6,
/// `checkcast`).
pub fn cast(object: Option<Ref>, below: bool) -> Reply
    ensures { (things : Things) (others : Others) (class : List ℕ) → is_known_object (length things.names) object ≡ true
        → IsAnswerWhere (IsBelow things object class below) things others (λ s names. Cast class (named s names object)) things others result }
{
    match object {
        None => Reply::Gives(Value::Null),
        Some(at) => {
            if below {
                Reply::Gives(Value::Reference(at))
            } else {
                Reply::Faults(Fault::ClassCast)
            }
        }
    }
}

/// Whether the object is one of the class, as `below` says; null is of none (JVMS 6, `instanceof`).
pub fn is_instance(object: Option<Ref>, below: bool) -> Reply
    ensures { (things : Things) (others : Others) (class : List ℕ) → is_known_object (length things.names) object ≡ true
        → IsAnswerWhere (IsBelow things object class below) things others (λ s names. IsInstance class (named s names object)) things others result }
{
    match object {
        None => Reply::Gives(Value::Int(0)),
        Some(_at) => {
            if below {
                Reply::Gives(Value::Int(1))
            } else {
                Reply::Gives(Value::Int(0))
            }
        }
    }
}
