//! Whether an answer fits the type of a result, and what it gives then (JVMS 2.10.3).

ghost use Rattle.std.specs.Prelude.{◌≡◌, ◌<◌, true, Some, length, if◌then◌else◌, IfOk, OnErr};
ghost use Rattle.std.specs.Option.{option_copied};
ghost use Rattle.class_machine.specs.Descriptors.{class_in};
ghost use Rattle.class_machine.specs.Natives as natives;
ghost use Rattle.class_machine.specs.World as worlds;
ghost use Rattle.machine_values.specs.Observed.{machine_answer};
ghost use Rattle.machine_steps.specs.Programs.{IsRunnable};
ghost use Rattle.machine_natives.specs.declared.response.Response.TheVariants.{Returns, Lacks};
ghost use Rattle.machine_natives.specs.Responses.{Comes, lacks};

use crate::classes::{is_throwable, takes_text};
use crate::descriptors::is_int_of;
use crate::response::Response;
use crate::throwing::{make_string, throw};
use aj_names::InternalName;
use class_machine::kinds::Element;
use class_world::World;
use machine_fields::element_of;
use machine_values::{Answer, Heap, Value};
use std::alloc::{AllocError, Global};

fn is_long(element: Element) -> bool
    ensures { result ≡ natives.is_long element }
{
    matches!(element, Element::Long)
}

fn is_reference(element: Element) -> bool
    ensures { result ≡ natives.is_reference element }
{
    matches!(element, Element::Reference)
}

// The value, where it fits.
fn if_fits(fits: bool, value: Value) -> Response
    ensures { result ≡ (if fits then Returns (Some value) else Lacks) }
{
    if fits {
        Response::Returns(Some(value))
    } else {
        Response::Lacks
    }
}

// A new String, where it is a value of the type of the descriptor.
fn text_result(
    alloc: Global,
    heap: &mut Heap,
    world: &World,
    descriptor: &[u8],
    units: &[u16],
) -> Result<Response, AllocError>
    requires { IsRunnable world.now }
    ensures comes { IfOk result (λ response. Comes world.now heap.old (λ cs w. natives.if_fits (natives.takes_text cs (class_in descriptor.now)) (natives.a_text (worlds.add_text w units.now))) heap.new response) }
    ensures lacks { IfOk result (λ response. lacks response ≡ true → heap.new ≡ heap.old) }
    ensures err { OnErr result (heap.new ≡ heap.old) }
{
    if !takes_text(alloc, world, descriptor)? {
        return Ok(Response::Lacks);
    }
    let at = make_string(heap, world, units)?;
    Ok(Response::Returns(Some(Value::Reference(at))))
}

// A new exception, where the class is `Throwable` or below it.
fn thrown(
    alloc: Global,
    heap: &mut Heap,
    world: &World,
    class: &InternalName,
    message: &[u16],
) -> Result<Response, AllocError>
    requires { IsRunnable world.now }
    ensures comes { IfOk result (λ response. Comes world.now heap.old (λ cs w. natives.thrown cs w class.now message.now) heap.new response) }
    ensures lacks { IfOk result (λ response. lacks response ≡ true → heap.new ≡ heap.old) }
    ensures err { OnErr result (heap.new ≡ heap.old) }
{
    if !is_throwable(alloc, world, class)? {
        return Ok(Response::Lacks);
    }
    let Some(class) = world.class(class) else {
        unreachable!()
    };
    throw(alloc, heap, world, class, message)
}

// An answer to a call of a method whose result is of the type of the descriptor.
fn result_of(
    alloc: Global,
    heap: &mut Heap,
    world: &World,
    descriptor: &[u8],
    answer: &Answer,
) -> Result<Response, AllocError>
    requires { IsRunnable world.now }
    ensures comes { IfOk result (λ response. Comes world.now heap.old (λ cs w. natives.result_of cs w descriptor.now (machine_answer answer.now)) heap.new response) }
    ensures lacks { IfOk result (λ response. lacks response ≡ true → heap.new ≡ heap.old) }
    ensures err { OnErr result (heap.new ≡ heap.old) }
{
    let element = element_of(descriptor);
    match answer {
        Answer::Int(n) => Ok(if_fits(is_int_of(element, *n), Value::Int(*n))),
        Answer::Long(n) => Ok(if_fits(is_long(element), Value::Long(*n))),
        Answer::Null => Ok(if_fits(is_reference(element), Value::Null)),
        Answer::Text(units) => text_result(alloc, heap, world, descriptor, units.as_slice()),
        Answer::Void => Ok(Response::Lacks),
        Answer::Throw(class, message) => thrown(alloc, heap, world, class, message.as_slice()),
    }
}

// An answer to a call of a method without a result.
fn end_of(
    alloc: Global,
    heap: &mut Heap,
    world: &World,
    answer: &Answer,
) -> Result<Response, AllocError>
    requires { IsRunnable world.now }
    ensures comes { IfOk result (λ response. Comes world.now heap.old (λ cs w. natives.end_of cs w (machine_answer answer.now)) heap.new response) }
    ensures lacks { IfOk result (λ response. lacks response ≡ true → heap.new ≡ heap.old) }
    ensures err { OnErr result (heap.new ≡ heap.old) }
{
    match answer {
        Answer::Void => Ok(Response::Returns(None)),
        Answer::Throw(class, message) => thrown(alloc, heap, world, class, message.as_slice()),
        _ => Ok(Response::Lacks),
    }
}

/// What comes of an answer to a call of a method with a result of the type of the descriptor, or
/// without one. A call that fails leaves the heap as it was.
pub(crate) fn fitted(
    alloc: Global,
    heap: &mut Heap,
    world: &World,
    result_type: Option<&[u8]>,
    answer: &Answer,
) -> Result<Response, AllocError>
    requires { IsRunnable world.now }
    ensures comes { IfOk result (λ response. Comes world.now heap.old (λ cs w. natives.fitted cs w (option_copied result_type.entry) (machine_answer answer.now)) heap.new response) }
    ensures lacks { IfOk result (λ response. lacks response ≡ true → heap.new ≡ heap.old) }
    ensures err { OnErr result (heap.new ≡ heap.old) }
{
    match result_type {
        Some(descriptor) => result_of(alloc, heap, world, descriptor, answer),
        None => end_of(alloc, heap, world, answer),
    }
}
