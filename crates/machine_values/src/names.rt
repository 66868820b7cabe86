//! Names of objects.

ghost use Rattle.std.specs.Prelude.{◌≡◌, IfOk};

use crate::units::Units;
use aj_names::{ClassId, FieldType};
use std::alloc::AllocError;

/// Of what objects are made and counted: of a class, or of an array type.
#[derive(Drop, PartialEq, Eq, Hash)]
pub enum Maker {
    Class(ClassId),
    Array(FieldType),
}

/// The name of an object, which no other object of a heap has.
#[derive(Drop, PartialEq, Eq, Hash)]
pub enum Name {
    /// The object that was made of the class or array type as the one of this number, from 1 on.
    Made(Maker, u64),
    /// The String of a literal: one for each text (JVMS 3.10.5).
    Literal(Units),
    /// The object of `java.lang.Class` that stands for a class or an array type.
    ClassObject(FieldType),
}

impl Maker {
    /// An equal value in memory of its own.
    pub fn copy(&self) -> Result<Maker, AllocError>
        ensures { IfOk result (λ m. m ≡ self.now) }
    {
        Ok(match self {
            Maker::Class(class) => Maker::Class(*class),
            Maker::Array(class) => Maker::Array(class.copy()?),
        })
    }
}

impl Name {
    /// An equal value in memory of its own.
    pub fn copy(&self) -> Result<Name, AllocError>
        ensures { IfOk result (λ n. n ≡ self.now) }
    {
        Ok(match self {
            Name::Made(maker, number) => Name::Made(maker.copy()?, *number),
            Name::Literal(units) => Name::Literal(units.copy()?),
            Name::ClassObject(class) => Name::ClassObject(class.copy()?),
        })
    }
}
