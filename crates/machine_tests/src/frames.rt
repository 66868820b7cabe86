//! Instructions on frames.

use aj_names::MethodId;
use class_machine::kinds::{Constant, Division, Kind, Shift, Slots};
use class_machine::meaning::Basic;
use machine_frames::{Effect, perform};
use machine_values::{Frame, Locals, Operands, Purpose, Value};
use std::alloc::AllocError;

/// A frame with room for 4 slots and with 2 locals.
fn small_frame(rt: &HostRuntime) -> Result<Frame, AllocError> {
    Ok(Frame {
        method: MethodId(0),
        pc: 0,
        operands: Operands::new(rt.alloc(), 4)?,
        locals: Locals::new(rt.alloc(), 2)?,
        monitor: None,
        constructed: false,
        purpose: Purpose::Ordinary,
    })
}

/// Performs the instructions one after the other, as long as each goes on at the next place.
fn goes_on(frame: &mut Frame, code: &[Basic]) -> bool {
    for basic in code {
        if !matches!(perform(frame, basic, None), Effect::On) {
            return false;
        }
    }
    true
}

/// Whether the topmost operand is this int, in this depth.
fn is_int_above(frame: &Frame, below: usize, wanted: i32) -> bool {
    match frame.operands.as_slice().get(below) {
        Some(Value::Int(n)) => *n == wanted,
        _ => false,
    }
}

// -5 % 3 is -2, and 1 << 33 is 2 (The Java Language Specification, second edition, 15.17.3, 15.19).
#[test]
fn computes(rt: HostRuntime) -> Result<(), AllocError> {
    let mut frame = small_frame(&rt)?;
    let code = [
        Basic::Constant(Constant::Int(-5)),
        Basic::Constant(Constant::Int(3)),
        Basic::IntDivide(Division::Remainder),
        Basic::Constant(Constant::Int(1)),
        Basic::Constant(Constant::Int(33)),
        Basic::IntShift(Shift::Left),
    ];
    assert!(rt; goes_on(&mut frame, &code));
    assert!(rt; is_int_above(&frame, 0, -2));
    assert!(rt; is_int_above(&frame, 1, 2));
    Ok(())
}

// A long takes two slots and two locals, and is moved as a whole.
#[test]
fn moves_longs(rt: HostRuntime) -> Result<(), AllocError> {
    let mut frame = small_frame(&rt)?;
    let code = [
        Basic::Constant(Constant::Long(1)),
        Basic::Store(Kind::Long, 0),
        Basic::Load(Kind::Long, 0),
        Basic::Constant(Constant::Int(9)),
        Basic::Duplicate(Slots::One, Slots::Two),
    ];
    assert!(rt; goes_on(&mut frame, &code));
    assert!(rt; is_int_above(&frame, 0, 9));
    assert!(rt; is_int_above(&frame, 2, 9));
    let full = perform(&mut frame, &Basic::Constant(Constant::Null), None);
    assert!(rt; matches!(full, Effect::Broken));
    let half = perform(&mut frame, &Basic::Load(Kind::Long, 1), None);
    assert!(rt; matches!(half, Effect::Broken));
    Ok(())
}
