//! New arrays, and the objects that stand for classes.

ghost use Rattle.std.specs.Prelude.{◌≡◌, ◌≤ℤ◌, pos, ◌++◌, [], ◌∷◌, List, ℕ, true, Option, IfOk, OnErr};
ghost use Rattle.class_machine.specs.Effect.{LoadClass, MakeArray};
ghost use Rattle.class_machine.specs.Values.{Literal};
ghost use Rattle.machine_values.specs.Types.{type_name};
ghost use Rattle.machine_requests.specs.Telling.{is_array_type, is_class_type};
ghost use Rattle.machine_requests.specs.Objects.{Finds, IsClass, Makes, new_content, StaysFilled};
ghost use Rattle.machine_values.specs.declared.names.Maker.TheVariants.{Class};
ghost use Rattle.machine_values.specs.Things.{with_made};
ghost use Rattle.machine_requests.specs.Shares.{Others, Setting};
ghost use Rattle.machine_requests.specs.Replies.{IsAnswer, IsLonger};

use crate::reply::Reply;
use aj_names::{ClassId, FieldType};
use class_machine::kinds::Fault;
use machine_values::{Heap, Ref, Value};
use std::alloc::AllocError;

// A size that isn't negative.
fn size_of(size: i32) -> u32
    requires { pos 0 ≤ℤ size }
    ensures { pos result ≡ size }
{
    size as u32
}

/// A new array of the type, with so many elements (JVMS 6, `newarray` and `anewarray`). A call that
/// fails leaves the heap as it was.
pub fn make_array(heap: &mut Heap, class: &FieldType, size: i32) -> Result<Reply, AllocError>
    requires { is_array_type class.now ≡ true }
    ensures ok { IfOk result (λ reply. (others : Others) (named : Option (List ℕ)) → IsAnswer heap.old others (λ s names. MakeArray named (type_name class.now) (size ∷ [])) heap.new others reply) }
    ensures names { IsLonger heap.old heap.new }
    ensures err { OnErr result (heap.new ≡ heap.old) }
    ensures filled { IfOk result (λ reply. (s : Setting) → StaysFilled heap.old heap.new s) }
{
    if size < 0 {
        return Ok(Reply::Faults(Fault::NegativeArraySize));
    }
    let count = size_of(size);
    let at = heap.make_array(class, count)?;
    Ok(Reply::Gives(Value::Reference(at)))
}

/// The object that stands for the class or array type (JVMS 6, `ldc`). A call that fails leaves the
/// heap as it was.
pub fn class_object(heap: &mut Heap, class: &FieldType) -> Result<Reply, AllocError>
    requires { is_class_type class.now ≡ true }
    ensures ok { IfOk result (λ reply. (others : Others) → IsAnswer heap.old others (λ s names. LoadClass (type_name class.now)) heap.new others reply) }
    ensures names { IsLonger heap.old heap.new }
    ensures err { OnErr result (heap.new ≡ heap.old) }
    ensures filled { IfOk result (λ reply. (s : Setting) → StaysFilled heap.old heap.new s) }
{
    let at = heap.class_object(class)?;
    Ok(Reply::Gives(Value::Reference(at)))
}

/// A new object of the class: one with an empty text, where `text` says that its objects have texts,
/// and else one with fields of these types, with their first values (JVMS 6, `new`). A call that fails
/// leaves the heap as it was.
pub fn make(
    heap: &mut Heap,
    class: ClassId,
    text: bool,
    fields: &[FieldType],
) -> Result<Ref, AllocError>
    ensures added { IfOk result (λ at. (at.0, heap.new) ≡ with_made heap.old (Class class) (new_content text fields.now)) }
    ensures ok { IfOk result (λ at. (others : Others) → Makes class.0 text fields.now heap.old others heap.new at) }
    ensures names { IsLonger heap.old heap.new }
    ensures err { OnErr result (heap.new ≡ heap.old) }
    ensures filled { IfOk result (λ at. (s : Setting) → IsClass class.0 text fields.now s → StaysFilled heap.old heap.new s) }
{
    if text {
        heap.make_text(class, &[])
    } else {
        heap.make(class, fields)
    }
}

/// The String of the literal of these units, the same one each time (JVMS 3.10.5). A call that fails
/// leaves the heap as it was.
pub fn literal(heap: &mut Heap, units: &[u16]) -> Result<Ref, AllocError>
    ensures ok { IfOk result (λ at. Finds (Literal units.now) heap.old heap.new at) }
    ensures names { IsLonger heap.old heap.new }
    ensures filled { IfOk result (λ at. (s : Setting) → StaysFilled heap.old heap.new s) }
    ensures err { OnErr result (heap.new ≡ heap.old) }
{
    let at = heap.literal(units)?;
    Ok(at)
}
