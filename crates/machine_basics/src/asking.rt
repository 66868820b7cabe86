//! What the heap and the monitors answer to the running frame (JVMS 3.11.5, 3.11.10). What makes an
//! array or enters a monitor takes memory, and nothing else here does.

ghost use Rattle.std.specs.Prelude.{◌≡◌, true, length, IfOk, OnErr};
ghost use Rattle.class_world.specs.Tables.{Known};
ghost use Rattle.machine_values.specs.Standing.{Settled};
ghost use Rattle.machine_values.specs.States.{is_known_object};
ghost use Rattle.machine_frames.specs.declared.effect.Request.TheVariants as request;
ghost use Rattle.machine_steps.specs.Programs.{IsRunnable};
ghost use Rattle.machine_invocations.specs.Keeping.{Keeps};
ghost use Rattle.machine_basics.specs.Replied.{IsReply, IsBaseOf};

use aj_names::{Base, FieldType};
use class_machine::kinds::Element;
use class_world::World;
use machine_fields::may_hold;
use machine_requests::{
    Reply, array_length, array_load, array_store, enter_monitor, leave_monitor, make_array,
};
use machine_values::{MachineState, Ref, Value};
use std::alloc::AllocError;

/// The element at the index.
pub(crate) fn load(state: &MachineState, element: Element, array: Option<Ref>, index: i32) -> Reply
    requires { is_known_object (length state.now.heap.names) array ≡ true }
    ensures { (k : Known) → IsReply k state.now (request.ArrayLoad element array index) state.now result }
{
    array_load(&state.heap, element, array, index)
}

/// The number of elements.
pub(crate) fn count(state: &MachineState, array: Option<Ref>) -> Reply
    requires { is_known_object (length state.now.heap.names) array ≡ true }
    ensures { (k : Known) → IsReply k state.now (request.ArrayLength array) state.now result }
{
    array_length(&state.heap, array)
}

/// The value is to be the element at the index, where the array may hold it.
pub(crate) fn store(
    state: &mut MachineState,
    world: &World,
    element: Element,
    array: Option<Ref>,
    index: i32,
    value: Value,
) -> Reply
    requires known { is_known_object (length state.old.heap.names) array ≡ true }
    requires settled { Settled (length state.old.heap.names) value }
    ensures { IsReply world.now state.old (request.ArrayStore element array index value) state.new result }
{
    let fits = may_hold(world, &state.heap, array, value);
    array_store(&mut state.heap, element, array, index, value, fits)
}

// The primitive type of such elements.
fn base_of(element: Element) -> Option<Base>
    ensures { IsBaseOf element result }
{
    match element {
        Element::Boolean => Some(Base::Boolean),
        Element::Byte => Some(Base::Byte),
        Element::Char => Some(Base::Char),
        Element::Short => Some(Base::Short),
        Element::Int => Some(Base::Int),
        Element::Long => Some(Base::Long),
        Element::Float => Some(Base::Float),
        Element::Double => Some(Base::Double),
        Element::Reference => None,
    }
}

/// A new array of a primitive type. What is no primitive type, which no instruction names, has none.
pub(crate) fn make(
    state: &mut MachineState,
    world: &World,
    element: Element,
    size: i32,
) -> Result<Reply, AllocError>
    requires { IsRunnable world.now }
    ensures made { IfOk result (λ reply. IsReply world.now state.old (request.MakeArray element size) state.new reply) }
    ensures err { OnErr result (state.new ≡ state.old) }
{
    let Some(base) = base_of(element) else {
        return Err(AllocError);
    };
    let class = FieldType { base, dims: 1 };
    make_array(&mut state.heap, &class, size)
}

/// Enters the monitor of the object.
pub(crate) fn enter(state: &mut MachineState, object: Option<Ref>) -> Result<Reply, AllocError>
    requires { is_known_object (length state.old.heap.names) object ≡ true }
    ensures entered { IfOk result (λ reply. (k : Known) → IsReply k state.old (request.EnterMonitor object) state.new reply) }
    ensures err { OnErr result ((k : Known) → Keeps k state.old state.new) }
{
    enter_monitor(&mut state.monitors, object)
}

/// Leaves the monitor of the object once.
pub(crate) fn leave(state: &mut MachineState, object: Option<Ref>) -> Reply
    requires { is_known_object (length state.old.heap.names) object ≡ true }
    ensures { (k : Known) → IsReply k state.old (request.LeaveMonitor object) state.new result }
{
    leave_monitor(&mut state.monitors, object)
}
