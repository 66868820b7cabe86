//! Code at places.

use aj_names::ByteString;
use class_file::{CodeAttr, ExceptionEntry, PoolEntry};
use class_machine::kinds::{Kind, Mode};
use class_machine::meaning::Basic;
use machine_code::{MethodCode, Operation, parameter_count, parameter_kind, result_type};
use sqlite_items::Items;
use std::alloc::{AllocError, Global};

// The code of these bytes, with an exception table.
fn code(alloc: Global, bytes: &[u8], entries: &[ExceptionEntry]) -> Result<CodeAttr, AllocError> {
    Ok(CodeAttr {
        max_stack: 1,
        max_locals: 1,
        code: Items::from_slice(alloc, bytes)?,
        entries: Items::from_slice(alloc, entries)?,
        attributes: Items::new(alloc),
    })
}

/// A tableswitch of the keys -1 to 1, a goto_w far ahead, and a return.
const SWITCH: [u8; 34] = [
    0xaa, 0, 0, 0, 0, 0, 0, 33, 255, 255, 255, 255, 0, 0, 0, 1, 0, 0, 0, 28, 0, 0, 0, 33, 0, 0, 0,
    28, 0xc8, 0, 1, 0, 0, 0xb1,
];

/// Where the switch leads with a key, or none where the code is too long.
fn switched(code: &CodeAttr, key: i32) -> Option<u32> {
    if code.code.len() >= 65536 {
        return None;
    }
    Some(MethodCode { pool: &[], code }.switch_target(0, key))
}

/// The place behind an instruction, and where it leads to first.
fn placed(code: &CodeAttr, pc: u32) -> Option<(u32, u32)> {
    if code.code.len() >= 65536 {
        return None;
    }
    let method = MethodCode { pool: &[], code };
    Some((method.next_place(pc), method.target(pc, 0)))
}

#[test]
fn switches_lead_by_their_keys(rt: HostRuntime) -> Result<(), AllocError> {
    let code = code(rt.alloc(), &SWITCH, &[])?;
    for (key, target) in [(-1, 28), (0, 33), (1, 28), (2, 33)] {
        assert!(rt; switched(&code, key) == Some(target), "{key}");
    }
    for (pc, next, target) in [(0, 28, 33), (28, 33, 65564), (33, 34, 65536)] {
        assert!(rt; placed(&code, pc) == Some((next, target)), "{pc}");
    }
    Ok(())
}

fn operation_at(pool: &[PoolEntry], code: &CodeAttr, pc: u32) -> Option<Operation> {
    if code.code.len() >= 65536 {
        return None;
    }
    MethodCode { pool, code }.operation_at(pc)
}

fn method_pool(alloc: Global) -> Result<[PoolEntry; 4], AllocError> {
    Ok([
        PoolEntry::Utf8(ByteString::from_slice(alloc, b"E")?),
        PoolEntry::Class(1),
        PoolEntry::NameAndType(1, 1),
        PoolEntry::Methodref(2, 3),
    ])
}

#[test]
fn instructions_have_operations(rt: HostRuntime) -> Result<(), AllocError> {
    let code = code(rt.alloc(), &SWITCH, &[])?;
    assert!(rt; matches!(operation_at(&[], &code, 0), Some(Operation::Switch(_))));
    assert!(rt;
        matches!(
            operation_at(&[], &code, 33),
            Some(Operation::Do(Basic::Return(None)))
        )
    );
    assert!(rt; operation_at(&[], &code, 34).is_none());
    Ok(())
}

#[test]
fn an_interface_method_is_none_of_a_class(rt: HostRuntime) -> Result<(), AllocError> {
    let pool = method_pool(rt.alloc())?;
    let code = code(rt.alloc(), &[0xb6, 0, 4, 0xb9, 0, 4, 1, 0, 0x12, 2], &[])?;
    assert!(rt;
        matches!(
            operation_at(&pool, &code, 0),
            Some(Operation::Invoke(Mode::Virtual, 4))
        )
    );
    assert!(rt; operation_at(&pool, &code, 3).is_none());
    assert!(rt;
        matches!(
            operation_at(&pool, &code, 8),
            Some(Operation::ReferClass(2))
        )
    );
    Ok(())
}

/// An entry for all exceptions, and one for those of the class of entry 2.
const ENTRIES: [ExceptionEntry; 2] = [
    ExceptionEntry {
        start: 0,
        end: 2,
        handler: 4,
        catch_type: 0,
    },
    ExceptionEntry {
        start: 0,
        end: 3,
        handler: 5,
        catch_type: 2,
    },
];

/// The place of the first handler from entry 0 on that covers the place, the number behind its entry, and
/// whether it is for all exceptions.
fn handler_at(pool: &[PoolEntry], code: &CodeAttr, pc: u32) -> Option<(u32, usize, bool)> {
    if code.code.len() >= 65536 {
        return None;
    }
    let handler = MethodCode { pool, code }.handler_from(pc, 0)?;
    let is_sound = handler.catch.is_none() || handler.catch == Some(b"E".as_slice());
    is_sound.then_some((handler.pc, handler.next, handler.catch.is_none()))
}

#[test]
fn handlers_are_those_that_cover_the_place(rt: HostRuntime) -> Result<(), AllocError> {
    let pool = method_pool(rt.alloc())?;
    let code = code(rt.alloc(), &[0, 0, 0, 0xb1], &ENTRIES)?;
    assert!(rt; handler_at(&pool, &code, 1) == Some((4, 1, true)));
    assert!(rt; handler_at(&pool, &code, 2) == Some((5, 2, false)));
    assert!(rt; handler_at(&pool, &code, 3).is_none());
    Ok(())
}

const DESCRIPTOR: &[u8] = b"(I[[JLa/B;D)[S";

#[test]
fn descriptors_are_read_by_types(rt: HostRuntime) {
    assert!(rt; parameter_count(DESCRIPTOR) == 4);
    assert!(rt; matches!(parameter_kind(DESCRIPTOR, 0), Some(Kind::Int)));
    assert!(rt; matches!(parameter_kind(DESCRIPTOR, 1), Some(Kind::Reference)));
    assert!(rt; matches!(parameter_kind(DESCRIPTOR, 3), Some(Kind::Double)));
    assert!(rt; parameter_kind(DESCRIPTOR, 4).is_none());
    assert!(rt; result_type(DESCRIPTOR) == Some(b"[S".as_slice()));
    assert!(rt; result_type(b"(J)V").is_none());
}
