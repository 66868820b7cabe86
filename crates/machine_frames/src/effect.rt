//! What an instruction does, beside its changes to the operands and locals.

use class_machine::kinds::{Element, Fault};
use machine_values::{Ref, Value};

/// What an instruction that names nothing asks of the heap and the monitors. A reference may be null.
#[derive(Clone, Copy)]
pub enum Request {
    /// An array of so many elements of the primitive type (JVMS 6, `newarray`).
    MakeArray(Element, i32),
    /// The element at the index (JVMS 6, `iaload` and its kin).
    ArrayLoad(Element, Option<Ref>, i32),
    /// The value, which no token and no return address is, is to be the element at the index (JVMS 6,
    /// `iastore` and its kin).
    ArrayStore(Element, Option<Ref>, i32, Value),
    ArrayLength(Option<Ref>),
    EnterMonitor(Option<Ref>),
    LeaveMonitor(Option<Ref>),
}

/// What becomes of a frame, once its operands and locals are changed.
#[derive(Clone, Copy)]
pub enum Effect {
    /// On at the next place.
    On,
    /// On at the target of this number.
    Jump(u32),
    /// On at the target, with the next place as a return address on top. There is room for it.
    Enter(u32),
    /// On at this place of the method.
    Back(u32),
    /// On at the next place, with what the answer gives on top. There is room for it.
    Ask(Request),
    /// Out of the method, with its result.
    Leave(Option<Value>),
    /// The machine makes an exception.
    Fail(Fault),
    /// The object is thrown.
    Throw(Ref),
    /// The run ends at this opcode, which computes with floating-point numbers.
    Unmodelled(u8),
    /// The run ends, since the code did what no verified code does.
    Broken,
}
