//! Edits of constant pools.

use aj_names::{ByteString, FieldName, InternalName, MethodName, utf8_write};
use class_file::PoolEntry;
use constant_pool::{PoolEdit, PoolFault};
use sqlite_items::Items;
use std::alloc::{AllocError, Global};

/// What is asked of an edit.
#[derive(Drop)]
enum Ask {
    Utf8(&'static [u8]),
    Class(&'static [u8]),
    String(&'static [u16]),
    Int(i32),
    Long(i64),
    Float(u32),
    Double(u64),
    /// The method `A.m()V` of a class.
    Method,
    /// The same of an interface.
    InterfaceMethod,
    /// The field `B.m`, of the descriptor `A`.
    Field,
}

fn class(alloc: Global, edit: &mut PoolEdit, name: &[u8]) -> Result<u16, PoolFault> {
    let name = InternalName::from_slice(alloc, name)?;
    if name.len() > 65535 {
        return Err(PoolFault::Memory);
    }
    edit.class(&name)
}

fn string(alloc: Global, edit: &mut PoolEdit, units: &[u16]) -> Result<u16, PoolFault> {
    match utf8_write(alloc, units) {
        Ok(text) if text.len() <= 65535 => edit.string(units),
        _ => Err(PoolFault::Memory),
    }
}

fn method(alloc: Global, edit: &mut PoolEdit, interface: bool) -> Result<u16, PoolFault> {
    let method = MethodName {
        class: InternalName::from_slice(alloc, b"A")?,
        name: ByteString::from_slice(alloc, b"m")?,
        descriptor: ByteString::from_slice(alloc, b"()V")?,
        interface,
    };
    edit.method_ref(&method)
}

fn field(alloc: Global, edit: &mut PoolEdit) -> Result<u16, PoolFault> {
    let field = FieldName {
        class: InternalName::from_slice(alloc, b"B")?,
        name: ByteString::from_slice(alloc, b"m")?,
        descriptor: ByteString::from_slice(alloc, b"A")?,
    };
    edit.field_ref(&field)
}

fn answer(alloc: Global, edit: &mut PoolEdit, ask: &Ask) -> Result<u16, PoolFault> {
    match ask {
        Ask::Utf8(text) if text.len() <= 65535 => edit.utf8(text),
        Ask::Utf8(_) => Err(PoolFault::Memory),
        Ask::Class(name) => class(alloc, edit, name),
        Ask::String(units) => string(alloc, edit, units),
        Ask::Int(number) => edit.int(*number),
        Ask::Long(number) => edit.long(*number),
        Ask::Float(bits) => edit.float(*bits),
        Ask::Double(bits) => edit.double(*bits),
        Ask::Method => method(alloc, edit, false),
        Ask::InterfaceMethod => method(alloc, edit, true),
        Ask::Field => field(alloc, edit),
    }
}

/// What is asked, the answer, and how many entries there are then.
type Step = (Ask, Result<u16, PoolFault>, usize);

/// The entries after these steps on an edit of the pool, or nothing where an answer is another.
fn entries_after(
    alloc: Global,
    pool: &[PoolEntry],
    steps: &[Step],
) -> Result<Option<Items<PoolEntry>>, AllocError> {
    if pool.len() > 65534 {
        return Ok(None);
    }
    let mut edit = PoolEdit::new(alloc, pool)?;
    for (ask, wanted, count) in steps {
        if answer(alloc, &mut edit, ask) != *wanted || edit.entries().len() != *count {
            return Ok(None);
        }
    }
    Ok(Some(edit.finish()))
}

const FULL: Result<u16, PoolFault> = Err(PoolFault::PoolFull);

/// Whether a pool of a text and so many ints, numbered from 0, answers so.
fn answer_so(alloc: Global, ints: u16, steps: &[Step]) -> Result<bool, AllocError> {
    let mut pool = Vec::new(alloc);
    pool.push(PoolEntry::Utf8(ByteString::from_slice(alloc, b"a")?))?;
    for number in 0..ints {
        pool.push(PoolEntry::Integer(i32::from(number)))?;
    }
    Ok(entries_after(alloc, &pool, steps)?.is_some())
}

const IN_A_FULL_POOL: [Step; 3] = [
    (Ask::Utf8(b"b"), FULL, 65534),
    (Ask::Utf8(b"a"), Ok(1), 65534),
    (Ask::Int(65532), Ok(65534), 65534),
];

const FOR_ONE_ENTRY: [Step; 3] = [
    (Ask::Long(7), FULL, 65533),
    (Ask::Utf8(b"b"), Ok(65534), 65534),
    (Ask::Utf8(b"c"), FULL, 65534),
];

/// A method takes six entries, and there is room for five.
const FOR_FIVE_ENTRIES: [Step; 5] = [
    (Ask::Method, FULL, 65529),
    (Ask::Class(b"A"), Ok(65531), 65531),
    (Ask::String(&[98, 99]), Ok(65533), 65533),
    (Ask::String(&[98]), FULL, 65533),
    (Ask::Utf8(b"b"), Ok(65534), 65534),
];

#[test]
fn full_pools(rt: HostRuntime) -> Result<(), AllocError> {
    assert!(rt; answer_so(rt.alloc(), 65533, &IN_A_FULL_POOL)?);
    assert!(rt; answer_so(rt.alloc(), 65532, &FOR_ONE_ENTRY)?);
    assert!(rt; answer_so(rt.alloc(), 65528, &FOR_FIVE_ENTRIES)?);
    Ok(())
}

/// Whether these steps on an edit of the pool are answered so, and leave these entries.
fn leaves(
    alloc: Global,
    pool: &[PoolEntry],
    steps: &[Step],
    wanted: &[PoolEntry],
) -> Result<bool, AllocError> {
    Ok(match entries_after(alloc, pool, steps)? {
        Some(entries) => entries.as_slice() == wanted,
        None => false,
    })
}

/// Whether the pool is found unchanged after the least of equal entries was answered.
fn answers_the_least(alloc: Global) -> Result<bool, AllocError> {
    let pool = vec![in alloc;
        PoolEntry::Utf8(ByteString::from_slice(alloc, b"A")?),
        PoolEntry::Utf8(ByteString::from_slice(alloc, b"A")?),
        PoolEntry::Class(2),
        PoolEntry::Class(1),
        PoolEntry::Class(1),
    ]?;
    let steps = [(Ask::Utf8(b"A"), Ok(1), 5), (Ask::Class(b"A"), Ok(4), 5)];
    leaves(alloc, &pool, &steps, &pool)
}

const MEMBERS: [Step; 9] = [
    (Ask::Class(b"A"), Ok(2), 2),
    (Ask::Method, Ok(6), 6),
    (Ask::InterfaceMethod, Ok(7), 7),
    (Ask::Method, Ok(6), 7),
    (Ask::String(&[65]), Ok(8), 8),
    (Ask::Int(-5), Ok(9), 9),
    (Ask::Long(-5), Ok(10), 11),
    (Ask::Long(-5), Ok(10), 11),
    (Ask::Field, Ok(15), 15),
];

/// Whether the entries from the 11th on are those of a field.
fn ends_in_a_field(entries: &[PoolEntry]) -> bool {
    match entries {
        [
            ..,
            PoolEntry::Second,
            PoolEntry::Utf8(_),
            PoolEntry::Class(12),
            name,
            field,
        ] => { *name == PoolEntry::NameAndType(3, 1) && *field == PoolEntry::Fieldref(13, 14) }
        _ => false,
    }
}

#[test]
fn entries_are_shared(rt: HostRuntime) -> Result<(), AllocError> {
    assert!(rt; answers_the_least(rt.alloc())?);
    match entries_after(rt.alloc(), &[], &MEMBERS)? {
        Some(entries) => assert!(rt; ends_in_a_field(entries.as_slice())),
        None => assert!(rt; false),
    }
    Ok(())
}

const BITS: [Step; 4] = [
    (Ask::Double(1), Ok(2), 3),
    (Ask::Float(2), Ok(4), 4),
    (Ask::Double(1), Ok(2), 4),
    (Ask::Float(1), Ok(1), 4),
];

/// Whether floats and doubles stand by their bits.
fn stand_by_bits(alloc: Global) -> Result<bool, AllocError> {
    let wanted = vec![in alloc;
        PoolEntry::Float(1),
        PoolEntry::Double(1),
        PoolEntry::Second,
        PoolEntry::Float(2),
    ]?;
    leaves(alloc, &[PoolEntry::Float(1)], &BITS, &wanted)
}

#[test]
fn floats_and_doubles(rt: HostRuntime) -> Result<(), AllocError> {
    assert!(rt; stand_by_bits(rt.alloc())?);
    Ok(())
}
