//! Types, seen without memory of their own, and whether a value of one is one of another (JVMS 2.6.7).

ghost use Rattle.std.specs.Prelude.{◌≡◌, false, drop};
ghost use Rattle.class_heads.specs.Hierarchy as rule;
ghost use Rattle.machine_requests.specs.Telling.{AreDistinct};
ghost use Rattle.machine_fields.specs.Types.{base_type, type_seen, base_named, takes_arrays};

use aj_names::{Base, FieldType, Hierarchy};
use class_world::World;

/// A class by its name, or a primitive type by its descriptor.
#[derive(Clone, Copy)]
pub(crate) enum BaseView<'a> {
    Class(&'a [u8]),
    Primitive(&'a [u8]),
}

/// A type: so many dimensions of the base.
#[derive(Clone, Copy)]
pub(crate) struct TypeView<'a> {
    pub(crate) dims: usize,
    pub(crate) base: BaseView<'a>,
}

fn is_array(name: &[u8]) -> bool
    ensures { result ≡ rule.is_array name.now }
{
    matches!(name, [b'[', ..])
}

// The name of a class in its descriptor, which ends at a semicolon.
fn before_semicolon(text: &[u8]) -> &[u8]
    ensures { result.now ≡ rule.before_semicolon text.now }
{
    for (i, byte) in text.iter().enumerate() {
        if *byte == b';' {
            return &text[..i];
        }
    }
    text
}

// Whether arrays are values of the class or interface.
fn is_array_supertype(name: &[u8]) -> bool
    ensures { result ≡ rule.is_array_supertype name.now }
{
    name == b"java/lang/Object".as_slice()
        || name == b"java/lang/Cloneable".as_slice()
        || name == b"java/io/Serializable".as_slice()
}

// The bytes behind the first one.
fn behind_first(bytes: &[u8]) -> &[u8]
    ensures { result.now ≡ drop 1 bytes.now }
{
    match bytes {
        [_first, rest @ ..] => rest,
        [] => bytes,
    }
}

// The type of the descriptor of no array.
fn base_of(descriptor: &[u8]) -> BaseView<'_>
    ensures { rule.is_array descriptor.now ≡ false → base_type result ≡ rule.type_of_descriptor descriptor.now }
{
    match descriptor {
        [b'L', name @ ..] => BaseView::Class(before_semicolon(name)),
        _ => BaseView::Primitive(descriptor),
    }
}

/// The type that a Class entry names: a class by its name, or an array type by its descriptor (JVMS
/// 4.4.1).
pub(crate) fn type_named(name: &[u8]) -> TypeView<'_>
    ensures { type_seen result ≡ rule.type_named name.now }
{
    if !is_array(name) {
        return TypeView {
            dims: 0,
            base: BaseView::Class(name),
        };
    }
    let mut rest = name;
    let mut dims = 0usize;
    while is_array(rest) {
        rest = behind_first(rest);
        dims += 1;
    }
    TypeView {
        dims,
        base: base_of(rest),
    }
}

/// The base of a type.
pub(crate) fn base_seen(base: &Base) -> BaseView<'_>
    ensures { base_type result ≡ base_named base.now }
{
    match base {
        Base::Boolean => BaseView::Primitive(b"Z"),
        Base::Byte => BaseView::Primitive(b"B"),
        Base::Char => BaseView::Primitive(b"C"),
        Base::Short => BaseView::Primitive(b"S"),
        Base::Int => BaseView::Primitive(b"I"),
        Base::Long => BaseView::Primitive(b"J"),
        Base::Float => BaseView::Primitive(b"F"),
        Base::Double => BaseView::Primitive(b"D"),
        Base::Class(name) => BaseView::Class(name.as_slice()),
    }
}

// Whether the one class is the other or below it.
fn is_class_below(world: &World, low: &[u8], high: &[u8]) -> bool
    ensures { AreDistinct world.now.heads → result ≡ rule.is_class_below world.now.heads low.now high.now }
{
    if low == high {
        return true;
    }
    match (world.class_named(low), world.class_named(high)) {
        (Some(low), Some(high)) => {
            world.is_subtype(&world.head(low).name, &world.head(high).name)
        }
        _ => false,
    }
}

fn is_base_below(world: &World, low: BaseView<'_>, high: BaseView<'_>) -> bool
    ensures { AreDistinct world.now.heads → result ≡ rule.is_type_below world.now.heads (base_type low.entry) (base_type high.entry) }
{
    match (low, high) {
        (BaseView::Class(low), BaseView::Class(high)) => is_class_below(world, low, high),
        (BaseView::Primitive(low), BaseView::Primitive(high)) => low == high,
        _ => false,
    }
}

// Whether arrays are values of the type, which is no array type.
fn takes_arrays(base: BaseView<'_>) -> bool
    ensures { result ≡ takes_arrays base.entry }
{
    match base {
        BaseView::Class(name) => is_array_supertype(name),
        BaseView::Primitive(_) => false,
    }
}

/// Whether a value of the one type is one of the other.
pub(crate) fn is_below(world: &World, low: TypeView<'_>, high: TypeView<'_>) -> bool
    ensures { AreDistinct world.now.heads → result ≡ rule.is_type_below world.now.heads (type_seen low.entry) (type_seen high.entry) }
{
    if low.dims < high.dims {
        return false;
    }
    if high.dims < low.dims {
        return takes_arrays(high.base);
    }
    is_base_below(world, low.base, high.base)
}
