//! Code taken apart.

use class_file::{CodeAttr, CodeAttribute, CodeContent, ExceptionEntry, LineRow};
use code_layout::{CodeEntry, Line, MethodCode, TakeApartFault, take_apart};
use opcode_table::CodeFault;
use sqlite_items::Items;
use std::alloc::{AllocError, Global};

/// `iload_0`, a `tableswitch` from -1 to 0 with the default behind it, `goto` the start, `return`.
pub(crate) const SWITCH: [u8; 28] = [
    26, 170, 0, 0, 0, 0, 0, 23, 255, 255, 255, 255, 0, 0, 0, 0, 0, 0, 0, 26, 255, 255, 255, 255,
    167, 255, 232, 177,
];

pub(crate) fn entry_of(start: u16, end: u16, handler: u16) -> ExceptionEntry {
    ExceptionEntry {
        start,
        end,
        handler,
        catch_type: 0,
    }
}

/// Code of these bytes with an entry of an exception table.
pub(crate) fn code_of(
    alloc: Global,
    bytes: &[u8],
    entry: ExceptionEntry,
) -> Result<CodeAttr, AllocError> {
    Ok(CodeAttr {
        max_stack: 1,
        max_locals: 2,
        code: Items::from_slice(alloc, bytes)?,
        entries: Items::from_slice(alloc, &[entry])?,
        attributes: Items::new(alloc),
    })
}

/// The code taken apart, where it isn't too long.
pub(crate) fn apart(alloc: Global, code: &CodeAttr) -> Result<MethodCode, TakeApartFault> {
    if code.code.len() >= 65536 {
        return Err(TakeApartFault::Memory);
    }
    take_apart(alloc, code)
}

/// The switch with an entry, and with a table of lines.
fn with_lines(alloc: Global) -> Result<CodeAttr, AllocError> {
    let rows = [
        LineRow { start: 24, line: 5 },
        LineRow { start: 25, line: 6 },
    ];
    let lines = CodeAttribute {
        name: 9,
        content: CodeContent::LineNumberTable(Items::from_slice(alloc, &rows)?),
    };
    let mut code = code_of(alloc, &SWITCH, entry_of(1, 28, 27))?;
    code.attributes.push(lines)?;
    Ok(code)
}

/// Whether the second of four instructions has these keys and leads to these.
fn switches(code: &MethodCode, keys: &[i32], to: &[u32]) -> bool {
    match code.targets.get(1) {
        Some(jump) => {
            code.insns.len() == 4 && jump.keys.as_slice() == keys && jump.to.as_slice() == to
        }
        None => false,
    }
}

/// Whether the first table of lines has these rows.
fn has_lines(code: &MethodCode, rows: &[Line]) -> bool {
    match code.lines.get(0) {
        Some(lines) => lines.rows.as_slice() == rows,
        None => false,
    }
}

/// Of the two rows, the second stands within an instruction.
#[test]
fn code_is_taken_apart(rt: HostRuntime) -> Result<(), TakeApartFault> {
    let code = with_lines(rt.alloc())?;
    let code = apart(rt.alloc(), &code)?;
    let entry = CodeEntry {
        start: 1,
        end: 4,
        handler: 3,
        catch_type: 0,
    };
    assert!(rt; switches(&code, &[-1, 0], &[2, 3, 0]));
    assert!(rt; code.entries.as_slice() == [entry].as_slice());
    assert!(rt; has_lines(&code, &[Line { start: 2, line: 5 }]));
    Ok(())
}

/// Code with an entry of this start, end and handler, and its fault.
const WRONG: [(&[u8], [u16; 3], TakeApartFault); 5] = [
    (
        &[0, 17, 0],
        [0, 1, 9],
        TakeApartFault::Code(CodeFault::Cut(1)),
    ),
    (&[0, 167, 0, 2], [0, 4, 9], TakeApartFault::Target(1)),
    (&[0, 167, 255, 254], [0, 4, 0], TakeApartFault::Target(1)),
    (&SWITCH, [0, 2, 9], TakeApartFault::Target(2)),
    (&SWITCH, [0, 28, 28], TakeApartFault::Target(28)),
];

fn fault_of(alloc: Global, bytes: &[u8], entry: [u16; 3]) -> Result<MethodCode, TakeApartFault> {
    let [start, end, handler] = entry;
    let code = code_of(alloc, bytes, entry_of(start, end, handler))?;
    apart(alloc, &code)
}

#[test]
fn wrong_places_are_refused(rt: HostRuntime) {
    for (bytes, entry, fault) in WRONG {
        assert!(rt;
            fault_of(rt.alloc(), bytes, entry).err() == Some(fault),
            "{bytes:?}"
        );
    }
}
