//! What instructions that name nothing in the constant pool do to their frame (JVMS 6).

ghost use Rattle.std.specs.Prelude.{◌≡◌, ℕ, true};
ghost use Rattle.class_machine.specs.Effect as definition;
ghost use Rattle.machine_values.specs.States.{IsFrameWithin};
ghost use Rattle.machine_frames.specs.Naming.{Naming, Faithful};
ghost use Rattle.machine_frames.specs.Effects.{Does, Keeps, setting, is_effect_within, raises};
ghost use Rattle.machine_frames.specs.Undoing.{Undoes};

use crate::arithmetic::{
    binary_of_ints, binary_of_longs, compare_long, convert, divide_ints, divide_longs, negate_int,
    negate_long, shift_int, shift_long, unmodelled,
};
use crate::arrays::{
    array_length, enter_monitor, leave_monitor, load_element, new_array, store_element,
};
use crate::control::{enter, if_int, if_ints, if_null, if_references, leave, throw};
use crate::effect::Effect;
use crate::stack::{constant, drop_slots, duplicate, exchange};
use crate::storage::{go_back, increment, load, store};
use class_machine::kinds::Kind;
use class_machine::meaning::Basic;
use machine_values::Frame;

/// Does what the instruction does to what the frame holds. The method of the frame has a result of
/// that kind. It takes no memory.
#[tactic(auto, using(crate::proofs::Undone::plain_undone, crate::proofs::Undone::frame_undone))]
pub fn perform(frame: &mut Frame, basic: &Basic, result_kind: Option<Kind>) -> Effect
    ensures kept { Keeps frame.old frame.new }
    ensures done { (n : Naming) (count : ℕ) → Faithful n count → IsFrameWithin count frame.old → Does n (definition.basic_effect (setting frame.old result_kind) basic.now) frame.old frame.new result }
    ensures within { (count : ℕ) → IsFrameWithin count frame.old → IsFrameWithin count frame.new }
    ensures known { (count : ℕ) → IsFrameWithin count frame.old → is_effect_within count result ≡ true }
    ensures raised { raises result ≡ true → frame.new.locals ≡ frame.old.locals }
    ensures undone { Undoes frame.old frame.new result }
{
    let operands = &mut frame.operands;
    match *basic {
        Basic::Nothing => Effect::On,
        Basic::Constant(value) => constant(operands, value),
        Basic::Load(kind, index) => load(operands, &frame.locals, kind, index),
        Basic::Store(kind, index) => store(operands, &mut frame.locals, kind, index),
        Basic::Pop(slots) => drop_slots(operands, slots),
        Basic::Duplicate(slots, under) => duplicate(operands, slots, under),
        Basic::Swap => exchange(operands),
        Basic::IntBinary(op) => binary_of_ints(operands, op),
        Basic::LongBinary(op) => binary_of_longs(operands, op),
        Basic::IntDivide(op) => divide_ints(operands, op),
        Basic::LongDivide(op) => divide_longs(operands, op),
        Basic::IntNegate => negate_int(operands),
        Basic::LongNegate => negate_long(operands),
        Basic::IntShift(op) => shift_int(operands, op),
        Basic::LongShift(op) => shift_long(operands, op),
        Basic::Increment(index, by) => increment(&mut frame.locals, index, by),
        Basic::Convert(conversion) => convert(operands, conversion),
        Basic::CompareLong => compare_long(operands),
        Basic::Unmodelled { op, from, both, to } => unmodelled(operands, op, from, both, to),
        Basic::IfInt(test) => if_int(operands, test),
        Basic::IfInts(test) => if_ints(operands, test),
        Basic::IfReferences(same) => if_references(operands, same),
        Basic::IfNull(null) => if_null(operands, null),
        Basic::Goto => Effect::Jump(0),
        Basic::Jsr => enter(operands),
        Basic::Ret(index) => go_back(&frame.locals, index),
        Basic::Return(kind) => leave(operands, kind, result_kind),
        Basic::Throw => throw(operands),
        Basic::NewArray(element) => new_array(operands, element),
        Basic::ArrayLoad(element) => load_element(operands, element),
        Basic::ArrayStore(element) => store_element(operands, element),
        Basic::ArrayLength => array_length(operands),
        Basic::EnterMonitor => enter_monitor(operands),
        Basic::LeaveMonitor => leave_monitor(operands),
    }
}
