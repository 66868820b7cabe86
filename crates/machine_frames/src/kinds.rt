//! Which values instructions of a kind take.

ghost use Rattle.std.specs.Prelude.{◌≡◌, ℕ};
ghost use Rattle.class_machine.specs.Values.{kind_width, same_kind, loads, stores};
ghost use Rattle.class_machine.specs.Descriptors.{element_kind};
ghost use Rattle.machine_frames.specs.Naming.{Naming, value};
ghost use Rattle.machine_frames.specs.Kinds.{is_of};

use class_machine::kinds::{Element, Kind};
use machine_values::Value;

/// Whether it is a plain value of the kind.
pub fn is_of(kind: Kind, held: &Value) -> bool
    ensures { result ≡ is_of kind held.now }
{
    match held {
        Value::Int(_) => matches!(kind, Kind::Int),
        Value::Long(_) => matches!(kind, Kind::Long),
        Value::Float(_) => matches!(kind, Kind::Float),
        Value::Double(_) => matches!(kind, Kind::Double),
        Value::Null | Value::Reference(_) => matches!(kind, Kind::Reference),
        Value::Token(_, _) | Value::ReturnAddress(_) => false,
    }
}

/// Whether a load of the kind takes the value; `aload` takes a token too.
pub fn loads(kind: Kind, held: &Value) -> bool
    ensures { (n : Naming) (method : ℕ) → result ≡ loads kind (value n method held.now) }
{
    match held {
        Value::Token(_, _) => matches!(kind, Kind::Reference),
        _ => is_of(kind, held),
    }
}

/// Whether a store of the kind takes the value; `astore` takes a token and a return address too.
pub fn stores(kind: Kind, held: &Value) -> bool
    ensures { (n : Naming) (method : ℕ) → result ≡ stores kind (value n method held.now) }
{
    match held {
        Value::Token(_, _) | Value::ReturnAddress(_) => matches!(kind, Kind::Reference),
        _ => is_of(kind, held),
    }
}

pub fn is_same_kind(kind: Kind, other: Kind) -> bool
    ensures { result ≡ same_kind kind other }
{
    match kind {
        Kind::Int => matches!(other, Kind::Int),
        Kind::Long => matches!(other, Kind::Long),
        Kind::Float => matches!(other, Kind::Float),
        Kind::Double => matches!(other, Kind::Double),
        Kind::Reference => matches!(other, Kind::Reference),
    }
}

/// How many slots a value of the kind takes.
pub fn kind_width(kind: Kind) -> usize
    ensures { result ≡ kind_width kind }
{
    match kind {
        Kind::Long | Kind::Double => 2,
        _ => 1,
    }
}

/// The kind of an operand that holds an element.
pub fn element_kind(element: Element) -> Kind
    ensures { result ≡ element_kind element }
{
    match element {
        Element::Long => Kind::Long,
        Element::Float => Kind::Float,
        Element::Double => Kind::Double,
        Element::Reference => Kind::Reference,
        _ => Kind::Int,
    }
}
