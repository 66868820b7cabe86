//! Instructions by their semantic forms.

use class_machine::kinds::{Access, Mode};
use class_machine::meaning::Basic;

/// Where the keys of a switch stand in the code, by the place of its table (JVMS 6, `tableswitch` and
/// `lookupswitch`).
#[derive(Clone, Copy)]
pub enum KeyTable {
    /// The keys are every number from a lowest one to a highest one.
    Range(u32),
    /// The keys stand in pairs, each with its target.
    Pairs(u32),
}

/// An instruction by its semantic form (JVMS 6). A `u16` of an instruction that names something is the
/// index of the constant pool.
#[derive(Clone, Copy)]
pub enum Operation {
    /// It names nothing in the constant pool.
    Do(Basic),
    /// `tableswitch` and `lookupswitch`.
    Switch(KeyTable),
    /// `ldc` of a String.
    Refer(u16),
    /// `ldc` of a class or array type.
    ReferClass(u16),
    FieldAccess(Access, u16),
    Invoke(Mode, u16),
    New(u16),
    /// `anewarray`, with the class or array type of the elements.
    NewReferenceArray(u16),
    /// `multianewarray`, with the type of the array and how many dimensions are made.
    NewArrays(u16, u8),
    CheckCast(u16),
    InstanceOf(u16),
}
