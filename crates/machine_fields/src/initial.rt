//! What static fields hold from the start (JVMS 2.5.1, 4.7.2).

ghost use Rattle.std.specs.Prelude.{◌≡◌, ◌<◌, true, List, ℕ, length, IfOk, OnErr};
ghost use Rattle.class_heads.specs.declared.types.FieldHead.{FieldHead as FieldOf};
ghost use Rattle.class_heads.specs.declared.types.ClassHead.{ClassHead as HeadOf};
ghost use Rattle.class_machine.specs.Classes.{same_member};
ghost use Rattle.class_machine.specs.Declarations.{declared_in, output_field};
ghost use Rattle.class_machine.specs.Descriptors.{blank, element_of};
ghost use Rattle.class_machine.specs.World.{World as WorldOf};
ghost use Rattle.machine_values.specs.declared.names.Name.{Name};
ghost use Rattle.machine_values.specs.Standing.{held, is_settled};
ghost use Rattle.machine_requests.specs.Objects.{StaysFilled};
ghost use Rattle.machine_requests.specs.Replies.{IsLonger};
ghost use Rattle.machine_requests.specs.Shares.{Others, Setting, Shares};
ghost use Rattle.machine_requests.specs.Telling.{AreDistinct};
ghost use Rattle.machine_fields.specs.Constants.{constant_seen, IsHeld, IsDeclared, IsOutput};
ghost use Rattle.machine_fields.specs.Settings.{world_setting};

use crate::constants::{Constant, constant_declared, units_of};
use aj_names::ClassId;
use class_heads::{ClassHead, FieldHead};
use class_world::World;
use machine_requests::literal;
use machine_values::{Heap, Ref, Value};
use std::alloc::{AllocError, Global};

// What a field of the descriptor holds at first (JVMS 2.5.1).
fn first_value(descriptor: &[u8]) -> Value
    ensures held { (heads : List HeadOf) (names : List Name) → held heads names result ≡ blank (element_of descriptor.now) }
    ensures settled { (count : ℕ) → is_settled count result ≡ true }
{
    match descriptor {
        [b'Z' | b'B' | b'C' | b'S' | b'I', ..] => Value::Int(0),
        [b'J', ..] => Value::Long(0),
        [b'F', ..] => Value::Float(0),
        [b'D', ..] => Value::Double(0),
        _ => Value::Null,
    }
}

// Whether the field is `System.out`.
fn is_output(head: &ClassHead, field: &FieldHead) -> bool
    ensures { result ≡ same_member (declared_in head.now.name field.now.name) output_field }
{
    field.name.name.as_slice() == b"out".as_slice()
        && field.name.descriptor.as_slice() == b"Ljava/io/PrintStream;".as_slice()
        && head.name.as_slice() == b"java/lang/System".as_slice()
}

// The constant as a value; a literal is in the heap then.
fn constant_value(
    alloc: Global,
    heap: &mut Heap,
    constant: Constant<'_>,
) -> Result<Value, AllocError>
    ensures ok { IfOk result (λ v. (s : Setting) (others : Others) (w : WorldOf) → AreDistinct s.heads → Shares s heap.old others w → IsHeld s (constant_seen constant.entry) heap.new others w v) }
    ensures names { IsLonger heap.old heap.new }
    ensures filled { IfOk result (λ v. (s : Setting) → StaysFilled heap.old heap.new s) }
    ensures err { OnErr result (heap.new ≡ heap.old) }
{
    match constant {
        Constant::Int(n) => Ok(Value::Int(n)),
        Constant::Long(n) => Ok(Value::Long(n)),
        Constant::Float(bits) => Ok(Value::Float(bits)),
        Constant::Double(bits) => Ok(Value::Double(bits)),
        Constant::Text(bytes) => {
            let units = units_of(alloc, bytes)?;
            let at = literal(heap, units.as_slice())?;
            Ok(Value::Reference(at))
        }
    }
}

/// What the static field that the class declares at the position holds from the start: its
/// ConstantValue (JVMS 4.7.2), the object of `System.out`, which stands at `output`, or the first value
/// of its type (JVMS 2.5.1). A call that fails leaves the heap as it was.
pub fn initial_value(
    alloc: Global,
    world: &World,
    heap: &mut Heap,
    class: ClassId,
    position: u32,
    output: Ref,
) -> Result<Value, AllocError>
    requires { class.0 < length world.now.heads }
    ensures initial { IfOk result (λ v. (head : HeadOf) (field : FieldOf) (others : Others) (w : WorldOf) → IsDeclared world.now class.0 position head field → IsOutput world.now heap.old output → AreDistinct world.now.heads → Shares (world_setting world.now) heap.old others w
        → IsHeld (world_setting world.now) ((world_setting world.now).classes.initial (declared_in head.name field.name)) heap.new others w v) }
    ensures names { IsLonger heap.old heap.new }
    ensures filled { IfOk result (λ v. (s : Setting) → StaysFilled heap.old heap.new s) }
    ensures err { OnErr result (heap.new ≡ heap.old) }
{
    let head = world.head(class);
    let Some(field) = head.fields.get(position as usize) else {
        return Ok(Value::Null);
    };
    let Some(file) = world.file(class) else {
        if is_output(head, field) {
            return Ok(Value::Reference(output));
        }
        return Ok(first_value(field.name.descriptor.as_slice()));
    };
    let constant = constant_declared(
        file,
        field.name.name.as_slice(),
        field.name.descriptor.as_slice(),
    );
    match constant {
        Some(constant) => constant_value(alloc, heap, constant),
        None => Ok(first_value(field.name.descriptor.as_slice())),
    }
}
