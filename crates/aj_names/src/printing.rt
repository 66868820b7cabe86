//! The descriptor of a type, and the slots of a method's parameters.

ghost use Rattle.std.specs.Prelude.{◌≡◌, ◌++◌, ◌∷◌, ◌^◌, ◌-◌, min, OnOk, IfOk};
ghost use Rattle.std.specs.List.{flat_map};
ghost use Rattle.aj_names.specs.Descriptors.{base_spelling, field_spelling, result_spelling, method_spelling, base_slots, field_slots, params_slots, method_slots};

use crate::{Base, FieldType, MethodType};
use std::alloc::{AllocError, Global};

fn put_base(out: &mut Vec<u8>, base: &Base) -> Result<(), AllocError>
    ensures { OnOk result (out.new.items ≡ out.old.items ++ base_spelling base.now) }
{
    match base {
        Base::Boolean => out.push(b'Z')?,
        Base::Byte => out.push(b'B')?,
        Base::Char => out.push(b'C')?,
        Base::Short => out.push(b'S')?,
        Base::Int => out.push(b'I')?,
        Base::Long => out.push(b'J')?,
        Base::Float => out.push(b'F')?,
        Base::Double => out.push(b'D')?,
        Base::Class(name) => {
            out.push(b'L')?;
            out.extend_from_slice(name.as_slice())?;
            out.push(b';')?;
        }
    }
    Ok(())
}

fn put_field(out: &mut Vec<u8>, t: &FieldType) -> Result<(), AllocError>
    ensures { OnOk result (out.new.items ≡ out.old.items ++ field_spelling t.now) }
{
    for _ in 0..t.dims {
        out.push(b'[')?;
    }
    put_base(out, &t.base)
}

fn put_params(out: &mut Vec<u8>, params: &[FieldType]) -> Result<(), AllocError>
    ensures { OnOk result (out.new.items ≡ out.old.items ++ flat_map field_spelling params.now) }
{
    for t in params {
        put_field(out, t)?;
    }
    Ok(())
}

impl FieldType {
    /// The type's descriptor (JVMS 4.3.2).
    pub fn print(&self, alloc: Global) -> Result<Vec<u8>, AllocError>
        ensures { IfOk result (λ text. text.items ≡ field_spelling self.now) }
    {
        let mut out = Vec::new(alloc);
        put_field(&mut out, self)?;
        Ok(out)
    }

    /// How many slots a value of the type takes: two of a long or a double, and else one (JVMS 3.6.1).
    pub fn slots(&self) -> u32
        ensures { result ≡ field_slots self.now }
    {
        match self.base {
            Base::Long | Base::Double if self.dims == 0 => 2,
            _ => 1,
        }
    }
}

impl MethodType {
    /// The type's descriptor (JVMS 4.3.3).
    pub fn print(&self, alloc: Global) -> Result<Vec<u8>, AllocError>
        ensures { IfOk result (λ text. text.items ≡ method_spelling self.now) }
    {
        let mut out = Vec::new(alloc);
        out.push(b'(')?;
        put_params(&mut out, self.params.as_slice())?;
        out.push(b')')?;
        match &self.result {
            None => out.push(b'V')?,
            Some(t) => put_field(&mut out, t)?,
        }
        Ok(out)
    }

    /// How many slots the parameters take, with one more for a receiver. Stands at 4294967295 where
    /// there are more.
    pub fn slots(&self, receiver: bool) -> u32
        ensures { result ≡ min (method_slots self.now receiver) (2 ^ 32 - 1) }
    {
        let mut slots = u32::from(receiver);
        for t in self.params.as_slice() {
            slots = slots.saturating_add(t.slots());
        }
        slots
    }
}
