//! Arrays of arrays (JVMS 2.15).

ghost use Rattle.std.specs.Prelude.{◌≡◌, ◌<◌, ◌≤◌, true, length, IfOk, OnErr};
ghost use Rattle.class_machine.specs.Answers as machine;
ghost use Rattle.machine_requests.specs.Replies.{IsLonger};
ghost use Rattle.machine_requests.specs.Shares.{Setting};
ghost use Rattle.machine_requests.specs.Telling.{is_array_type};
ghost use Rattle.machine_arrays.specs.Made.{element_type, Makes, Extends, KeepsFilled};

use aj_names::FieldType;
use machine_values::{Heap, Ref, Value};
use std::alloc::AllocError;

// The type of the elements of an array.
fn element_type(array: &FieldType) -> Result<FieldType, AllocError>
    requires { 0 < array.now.dims }
    ensures { IfOk result (λ element. element ≡ element_type array.now) }
{
    let base = array.base.copy()?;
    Ok(FieldType {
        base,
        dims: array.dims - 1,
    })
}

// How many elements an array of the size has; none, where the size is negative.
fn size_of(size: i32) -> u32
    ensures { result ≡ machine.size_of size }
{
    if size < 0 { 0 } else { size as u32 }
}

// Makes an array of the first size, and then, one after the other, the arrays in it, of the other
// sizes. A call that fails leaves those that were made before.
fn put_arrays(heap: &mut Heap, class: &FieldType, sizes: &[i32]) -> Result<Ref, AllocError>
    requires array { is_array_type class.now ≡ true }
    requires some { 0 < length sizes.now }
    requires deep { length sizes.now ≤ class.now.dims }
    requires whole { length heap.old.contents ≡ length heap.old.names }
    ensures made { IfOk result (λ at. Makes heap.old heap.new class.now sizes.now at) }
    ensures within { IfOk result (λ at. at.0 < length heap.new.names) }
    ensures filled { IfOk result (λ at. (s : Setting) → KeepsFilled heap.old heap.new s) }
    ensures extends { Extends heap.old heap.new }
{
    let [size, inner @ ..] = sizes else {
        unreachable!()
    };
    let count = size_of(*size);
    let at = heap.make_array(class, count)?;
    if inner.is_empty() {
        return Ok(at);
    }
    let element = element_type(class)?;
    'filling: for index in 0..count {
        let array = put_arrays(heap, &element, inner)?;
        heap.store(at, index, Value::Reference(array));
    }
    Ok(at)
}

/// A new array of the first size, and in it arrays of the other sizes; what no size is said of holds
/// null, 0 or false (JVMS 2.15, 6, `multianewarray`). An array stands before those in it.
///
/// # Errors
/// Where there is no memory; the heap is as it was then.
pub fn make_arrays(heap: &mut Heap, class: &FieldType, sizes: &[i32]) -> Result<Ref, AllocError>
    requires array { is_array_type class.now ≡ true }
    requires some { 0 < length sizes.now }
    requires deep { length sizes.now ≤ class.now.dims }
    ensures made { IfOk result (λ at. Makes heap.old heap.new class.now sizes.now at) }
    ensures within { IfOk result (λ at. at.0 < length heap.new.names) }
    ensures filled { IfOk result (λ at. (s : Setting) → KeepsFilled heap.old heap.new s) }
    ensures names { IsLonger heap.old heap.new }
    ensures err { OnErr result (heap.new ≡ heap.old) }
{
    let count = heap.count();
    match put_arrays(heap, class, sizes) {
        Ok(at) => Ok(at),
        Err(failed) => {
            heap.truncate(count);
            Err(failed)
        }
    }
}
