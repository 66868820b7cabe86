//! What the format has an attribute hold, by its name and place (JVMS 4.7).

ghost use Rattle.std.specs.Prelude.{◌≡◌, [], ◌∷◌, ℕ, List};
ghost use Rattle.class_file.specs.WellFormed.{kind_in_class, kind_in_field, kind_in_method, kind_in_code, kind_after};
ghost use Rattle.class_format.specs.Kinds.{kind_of, code_kind_of, kinds_in, position_in, Marks, was_seen};

/// Where an attribute stands.
#[derive(Clone, Copy, Debug, PartialEq, Eq)]
pub(crate) enum Place {
    Class,
    Field,
    /// The method of this position, from 0.
    Method(u16),
}

/// What the format has an attribute of a class, a field or a method hold.
#[derive(Clone, Copy, Debug, PartialEq, Eq)]
pub(crate) enum Held {
    Code,
    ConstantValue,
    Exceptions,
    InnerClasses,
    Synthetic,
    Other,
}

/// What the format has an attribute of a Code hold.
#[derive(Clone, Copy, Debug, PartialEq, Eq)]
pub(crate) enum HeldInCode {
    Lines,
    Variables,
    VariableTypes,
    Other,
}

/// Which names the attributes have that were read before in the same list.
#[derive(Clone, Copy, Debug, PartialEq, Eq)]
pub(crate) struct Seen {
    pub(crate) code: bool,
    pub(crate) constant_value: bool,
    pub(crate) exceptions: bool,
    pub(crate) inner_classes: bool,
    pub(crate) synthetic: bool,
}

pub(crate) fn held_in_code(name: &[u8]) -> HeldInCode
    ensures { code_kind_of result ≡ kind_in_code name.now }
{
    if name == b"LineNumberTable".as_slice() {
        HeldInCode::Lines
    } else if name == b"LocalVariableTable".as_slice() {
        HeldInCode::Variables
    } else if name == b"LocalVariableTypeTable".as_slice() {
        HeldInCode::VariableTypes
    } else {
        HeldInCode::Other
    }
}

fn held_in_class(name: &[u8]) -> Held
    ensures { kind_of result ≡ kind_in_class name.now }
{
    if name == b"InnerClasses".as_slice() {
        Held::InnerClasses
    } else if name == b"Synthetic".as_slice() {
        Held::Synthetic
    } else {
        Held::Other
    }
}

fn held_in_field(name: &[u8]) -> Held
    ensures { kind_of result ≡ kind_in_field name.now }
{
    if name == b"ConstantValue".as_slice() {
        Held::ConstantValue
    } else if name == b"Synthetic".as_slice() {
        Held::Synthetic
    } else {
        Held::Other
    }
}

fn held_in_method(name: &[u8]) -> Held
    ensures { kind_of result ≡ kind_in_method name.now }
{
    if name == b"Code".as_slice() {
        Held::Code
    } else if name == b"Exceptions".as_slice() {
        Held::Exceptions
    } else if name == b"Synthetic".as_slice() {
        Held::Synthetic
    } else {
        Held::Other
    }
}

fn held_in(place: Place, name: &[u8]) -> Held
    ensures { kind_of result ≡ kinds_in place name.now }
{
    match place {
        Place::Class => held_in_class(name),
        Place::Field => held_in_field(name),
        Place::Method(_) => held_in_method(name),
    }
}

impl Place {
    /// The position of the method, or 0 where the attribute stands in none.
    pub(crate) fn position(self) -> u16
        ensures { result ≡ position_in self }
    {
        match self {
            Place::Class | Place::Field => 0,
            Place::Method(position) => position,
        }
    }
}

impl Seen {
    /// None yet.
    pub(crate) fn none() -> Seen
        ensures { Marks result [] }
    {
        Seen {
            code: false,
            constant_value: false,
            exceptions: false,
            inner_classes: false,
            synthetic: false,
        }
    }

    fn has(&self, held: Held) -> bool
        ensures { result ≡ was_seen self.now held }
    {
        match held {
            Held::Code => self.code,
            Held::ConstantValue => self.constant_value,
            Held::Exceptions => self.exceptions,
            Held::InnerClasses => self.inner_classes,
            Held::Synthetic => self.synthetic,
            Held::Other => true,
        }
    }

    /// What the format has an attribute of this name hold behind those that were seen: a second one
    /// of a name is kept as bytes.
    pub(crate) fn held(&self, place: Place, name: &[u8]) -> Held
        ensures { (earlier : List (List ℕ)) → Marks self.now earlier → kind_of result ≡ kind_after (kinds_in place) earlier name.now }
    {
        let held = held_in(place, name);
        if self.has(held) { Held::Other } else { held }
    }

    /// With an attribute of this name.
    pub(crate) fn with(self, name: &[u8]) -> Seen
        ensures { (earlier : List (List ℕ)) → Marks self earlier → Marks result (name.now ∷ earlier) }
    {
        Seen {
            code: b"Code".as_slice() == name || self.code,
            constant_value: b"ConstantValue".as_slice() == name || self.constant_value,
            exceptions: b"Exceptions".as_slice() == name || self.exceptions,
            inner_classes: b"InnerClasses".as_slice() == name || self.inner_classes,
            synthetic: b"Synthetic".as_slice() == name || self.synthetic,
        }
    }
}
