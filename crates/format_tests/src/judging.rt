//! Faults of constant pools and of code.

use aj_names::ByteString;
use class_file::{CodeAttr, ExceptionEntry, PoolEntry};
use class_rules::{Starts, TextForms, code_fault, pool_fault};
use sqlite_items::Items;
use std::alloc::{AllocError, Global};

fn utf8(alloc: Global, bytes: &[u8]) -> Result<PoolEntry, AllocError> {
    Ok(PoolEntry::Utf8(ByteString::from_slice(alloc, bytes)?))
}

// Entry 2 is a class and 4 an array type, 8 is a method and 11 a field, and 12 is a long.
fn sound_pool(alloc: Global) -> Result<Vec<PoolEntry>, AllocError> {
    let pool = vec![in alloc;
        utf8(alloc, b"java/lang/C")?,
        PoolEntry::Class(1),
        utf8(alloc, b"[I")?,
        PoolEntry::Class(3),
        utf8(alloc, b"m")?,
        utf8(alloc, b"()V")?,
        PoolEntry::NameAndType(5, 6),
        PoolEntry::Methodref(2, 7),
        utf8(alloc, b"I")?,
        PoolEntry::NameAndType(5, 9),
        PoolEntry::Fieldref(2, 10),
        PoolEntry::Long(1),
        PoolEntry::Second,
    ]?;
    Ok(pool)
}

// The first fault of the sound pool with the entry behind it, at index 14.
fn fault_with(alloc: Global, entry: PoolEntry) -> Result<Option<u16>, AllocError> {
    let mut pool = sound_pool(alloc)?;
    pool.push(entry)?;
    let forms = TextForms::judge(alloc, &pool)?;
    Ok(if pool.len() < 65535 {
        pool_fault(&pool, &forms)
    } else {
        None
    })
}

/// Entries that name what is of another kind, or nothing.
const UNSOUND: [PoolEntry; 7] = [
    PoolEntry::Class(2),
    PoolEntry::String(0),
    PoolEntry::Fieldref(2, 7),
    PoolEntry::Methodref(2, 10),
    PoolEntry::InterfaceMethodref(1, 7),
    PoolEntry::NameAndType(1, 6),
    PoolEntry::NameAndType(5, 5),
];

#[test]
fn pools_have_faults(rt: HostRuntime) -> Result<(), AllocError> {
    assert!(rt; fault_with(rt.alloc(), PoolEntry::Float(0))?.is_none());
    for entry in UNSOUND {
        assert!(rt; fault_with(rt.alloc(), entry)? == Some(14));
    }
    // A text that isn't modified UTF-8.
    let text = utf8(rt.alloc(), &[0])?;
    assert!(rt; fault_with(rt.alloc(), text)? == Some(14));
    Ok(())
}

/// What the text of the index may serve as: a text, the name of a class, an internal name, the name of a
/// member, a descriptor of a field, of a method with a receiver, and of one without.
fn served(forms: &TextForms, index: u16) -> [bool; 7] {
    [
        forms.is_text(index),
        forms.is_class_name(index),
        forms.is_internal_name(index),
        forms.is_member_name(index),
        forms.is_field_descriptor(index),
        forms.is_method_descriptor(true, index),
        forms.is_method_descriptor(false, index),
    ]
}

/// What the entries of these indices serve as, in the order above.
const SERVED: [(u16, [bool; 7]); 9] = [
    (0, [false; 7]),
    (1, [true, true, true, false, false, false, false]),
    (2, [false; 7]),
    (3, [true, false, true, false, true, false, false]),
    (5, [true, true, true, true, false, false, false]),
    (6, [true, true, true, true, false, true, true]),
    (9, [true, true, true, true, true, false, false]),
    (14, [true, true, true, true, false, false, true]),
    (15, [false; 7]),
];

// The sound pool, and behind it a descriptor whose parameters take 255 slots.
fn with_long_descriptor(alloc: Global) -> Result<Vec<PoolEntry>, AllocError> {
    let mut bytes = b"(I".to_vec(alloc)?;
    bytes.resize(129, b'J')?;
    bytes.extend_from_slice(b")V")?;
    let mut pool = sound_pool(alloc)?;
    pool.push(PoolEntry::Utf8(ByteString::from_vec(bytes)))?;
    Ok(pool)
}

#[test]
fn texts_have_forms(rt: HostRuntime) -> Result<(), AllocError> {
    let pool = with_long_descriptor(rt.alloc())?;
    let forms = TextForms::judge(rt.alloc(), &pool)?;
    for (index, wanted) in SERVED {
        assert!(rt; served(&forms, index) == wanted, "{index}");
    }
    Ok(())
}

fn code_of(alloc: Global, code: &[u8], entries: &[ExceptionEntry]) -> Result<CodeAttr, AllocError> {
    Ok(CodeAttr {
        max_stack: 1,
        max_locals: 1,
        code: Items::from_vec(code.to_vec(alloc)?),
        entries: Items::from_vec(entries.to_vec(alloc)?),
        attributes: Items::new(alloc),
    })
}

/// Code of a class of a major version, and the place of its fault: operands.
const OPERANDS: [(u16, &[u8], Option<u32>); 14] = [
    (49, &[], Some(0)),
    (49, &[177], None),
    (49, &[0, 17, 0], Some(1)),
    (49, &[0, 178, 0, 8], Some(1)),
    (49, &[178, 0, 8, 202], Some(3)),
    (49, &[202, 178, 0, 8], Some(0)),
    (49, &[18, 2], None),
    (48, &[18, 2], Some(0)),
    (49, &[20, 0, 12, 182, 0, 8, 181, 0, 11], None),
    (49, &[185, 0, 8, 1, 0], Some(0)),
    (49, &[188, 4, 188, 12], Some(2)),
    (49, &[189, 0, 4, 187, 0, 1], Some(3)),
    (49, &[197, 0, 4, 1, 197, 0, 4, 2], Some(4)),
    (49, &[197, 0, 4, 0], Some(0)),
];

/// The same: `goto`, `goto_w`, `tableswitch` and `lookupswitch`. Each switch has its own place as its
/// default, and the byte behind that as its other target.
const BRANCHES: [(u16, &[u8], Option<u32>); 9] = [
    (49, &[167, 0, 3, 167, 255, 253], None),
    (49, &[0, 167, 0, 1], Some(1)),
    (49, &[167, 255, 255], Some(0)),
    (49, &[167, 0, 3], Some(0)),
    (49, &[167, 0, 1, 178, 0, 8], Some(3)),
    (49, &[200, 0, 0, 0, 0], None),
    (49, &[200, 0, 0, 0, 1], Some(0)),
    (
        49,
        &[170, 0, 0, 0, 0, 0, 0, 0, 0, 0, 0, 0, 0, 0, 0, 0, 0, 0, 0, 1],
        Some(0),
    ),
    (
        49,
        &[171, 0, 0, 0, 0, 0, 0, 0, 0, 0, 0, 1, 0, 0, 0, 0, 0, 0, 0, 1],
        Some(0),
    ),
];

fn fault_of(alloc: Global, major: u16, code: &[u8]) -> Result<Option<u32>, AllocError> {
    let pool = sound_pool(alloc)?;
    code_fault(alloc, major, &pool, &code_of(alloc, code, &[])?)
}

#[test]
fn operands_have_faults(rt: HostRuntime) -> Result<(), AllocError> {
    for (major, code, want) in OPERANDS {
        assert!(rt; fault_of(rt.alloc(), major, code)? == want, "{code:?}");
    }
    Ok(())
}

#[test]
fn branches_have_faults(rt: HostRuntime) -> Result<(), AllocError> {
    for (major, code, want) in BRANCHES {
        assert!(rt; fault_of(rt.alloc(), major, code)? == want, "{code:?}");
    }
    Ok(())
}

/// An entry of an exception table.
const fn entry(start: u16, end: u16, handler: u16) -> ExceptionEntry {
    ExceptionEntry {
        start,
        end,
        handler,
        catch_type: 0,
    }
}

// The fault of `nop`, `sipush` and `return`, at 0, 1 and 4, with the entry.
fn table_fault_of(alloc: Global, entry: ExceptionEntry) -> Result<Option<u32>, AllocError> {
    let code = code_of(alloc, &[0, 17, 0, 0, 177], &[entry])?;
    code_fault(alloc, 49, &[], &code)
}

#[test]
fn exception_tables_have_faults(rt: HostRuntime) -> Result<(), AllocError> {
    let cases = [
        (0, 4, 1, None),
        (0, 5, 4, None),
        (2, 3, 3, Some(2)),
        (0, 3, 3, Some(3)),
        (0, 6, 4, Some(6)),
        (0, 5, 5, Some(5)),
    ];
    for (start, end, handler, want) in cases {
        let found = table_fault_of(rt.alloc(), entry(start, end, handler))?;
        assert!(rt; found == want, "{start} to {end}, {handler}");
    }
    Ok(())
}

/// Whether instructions stand at these places of `nop`, `sipush` and `return` alone.
fn stand_at(alloc: Global, places: &[u32]) -> Result<bool, AllocError> {
    let Ok(starts) = Starts::find(alloc, &[0, 17, 0, 0, 177])? else {
        return Ok(false);
    };
    let stands = (0..7u32).all(|place| starts.is_start(place) == places.contains(&place));
    Ok(stands && starts.is_start_from(4, -3) && !starts.is_start_from(0, -1))
}

#[test]
fn starts_are_found(rt: HostRuntime) -> Result<(), AllocError> {
    assert!(rt; stand_at(rt.alloc(), &[0, 1, 4])?);
    Ok(())
}
