//! Names, descriptors, modified UTF-8 and big-endian numbers.

use aj_names::{
    ByteString, Cursor, FieldType, InternalName, MethodType, NameFault, is_class_name,
    is_field_descriptor, is_internal_name, is_member_name, is_method_descriptor, is_utf8,
    method_slots, utf8_fault, utf8_read, utf8_write,
};
use std::alloc::{AllocError, Global};

/// The parts one behind the other, the middle one so many times.
fn repeated(
    alloc: Global,
    front: &[u8],
    part: &[u8],
    count: u32,
    back: &[u8],
) -> Result<Vec<u8>, AllocError> {
    let mut text = Vec::from_slice(alloc, front)?;
    for _ in 0..count {
        text.extend_from_slice(part)?;
    }
    text.extend_from_slice(back)?;
    Ok(text)
}

/// Whether the descriptor is one of a method of so many slots, and is printed again.
fn is_method(alloc: Global, text: &[u8], slots: u32, parameters: usize) -> Result<bool, NameFault> {
    let read = MethodType::read(alloc, text)?;
    let copy = read.copy(alloc)?;
    let again = copy.print(alloc)?;
    Ok(read.slots(false) == slots && copy.params.len() == parameters && again.as_slice() == text)
}

#[test]
fn methods(rt: HostRuntime) -> Result<(), NameFault> {
    assert!(rt; is_method(rt.alloc(), b"()V", 0, 0)?);
    assert!(rt; is_method(rt.alloc(), b"(IJ)V", 3, 2)?);
    assert!(rt; is_method(rt.alloc(), LONG, 3, 2)?);
    Ok(())
}

#[test]
fn slots_of_methods(rt: HostRuntime) {
    assert_eq!(rt; method_slots(b"(IJ)V", false), Some(3));
    assert_eq!(rt; method_slots(b"(IJ)V", true), Some(4));
    assert_eq!(rt; method_slots(b"(IJ)", true), None);
}

/// Whether the text is no descriptor of a method, from that byte on.
fn is_method_fault(alloc: Global, text: &[u8], at: u32) -> bool {
    let fault = MethodType::read(alloc, text).err();
    fault == Some(NameFault::BadDescriptor(at)) && !is_method_descriptor(text)
}

const LONG: &[u8] = b"([[Ljava/lang/String;D)[J";

#[test]
fn each_cut_of_a_method(rt: HostRuntime) {
    assert!(rt; is_method_descriptor(LONG));
    for (cut, _) in LONG.iter().enumerate() {
        assert!(rt;
            is_method_fault(rt.alloc(), &LONG[..cut], cut as u32),
            "cut to {cut}"
        );
    }
}

/// Texts that are no descriptors of methods, and where.
const METHOD_FAULTS: [(&[u8], u32); 9] = [
    (b"(I", 2),
    (b"(IV)V", 2),
    (b"()VV", 3),
    (b"I", 0),
    (b"(L;)V", 2),
    (b"(La.b;)V", 3),
    (b"(La//b;)V", 4),
    (b"(La\xc3(;)V", 4),
    (b"(La\xed\xa0\x80b;)V", 6),
];

#[test]
fn method_faults(rt: HostRuntime) {
    for (text, at) in METHOD_FAULTS {
        assert!(rt; is_method_fault(rt.alloc(), text, at), "{text:?}");
    }
}

/// Whether so many parameters of the type, behind these bytes, take so many slots, and one more with a
/// receiver.
fn have_slots(
    alloc: Global,
    front: &[u8],
    part: &[u8],
    count: u32,
    slots: u32,
) -> Result<bool, NameFault> {
    let text = repeated(alloc, front, part, count, b")V")?;
    let read = MethodType::read(alloc, text.as_slice())?;
    Ok(read.slots(false) == slots && read.slots(true) == slots.saturating_add(1))
}

/// Whether so many parameters of the type are too many, from that byte on.
fn are_too_many(alloc: Global, part: &[u8], count: u32, at: u32) -> Result<bool, AllocError> {
    let text = repeated(alloc, b"(", part, count, b")V")?;
    Ok(is_method_fault(alloc, text.as_slice(), at))
}

#[test]
fn slots_at_the_bound(rt: HostRuntime) -> Result<(), NameFault> {
    assert!(rt; have_slots(rt.alloc(), b"(", b"I", 254, 254)?);
    assert!(rt; have_slots(rt.alloc(), b"(", b"I", 255, 255)?);
    assert!(rt; have_slots(rt.alloc(), b"(", b"J", 127, 254)?);
    assert!(rt; have_slots(rt.alloc(), b"(I", b"J", 127, 255)?);
    assert!(rt; are_too_many(rt.alloc(), b"I", 256, 259)?);
    assert!(rt; are_too_many(rt.alloc(), b"J", 128, 131)?);
    Ok(())
}

/// Whether an array of so many dimensions is read, copied and printed.
fn is_array(alloc: Global, dims: u32) -> Result<bool, NameFault> {
    let text = repeated(alloc, b"", b"[", dims, b"I")?;
    let read = FieldType::read(alloc, text.as_slice())?;
    let copy = read.copy()?;
    let again = copy.print(alloc)?;
    Ok(read == copy && u32::from(read.dims) == dims && again.as_slice() == text.as_slice())
}

/// Whether the text is no descriptor of a field, from that byte on.
fn is_field_fault(alloc: Global, text: &[u8], at: u32) -> bool {
    let fault = FieldType::read(alloc, text).err();
    fault == Some(NameFault::BadDescriptor(at)) && !is_field_descriptor(text)
}

#[test]
fn fields(rt: HostRuntime) -> Result<(), NameFault> {
    assert!(rt; is_array(rt.alloc(), 0)?);
    assert!(rt; is_array(rt.alloc(), 255)?);
    let deeper = repeated(rt.alloc(), b"", b"[", 256, b"I")?;
    assert!(rt; is_field_fault(rt.alloc(), deeper.as_slice(), 255));
    assert!(rt; is_field_fault(rt.alloc(), b"Ljava/lang/String", 17));
    assert!(rt; is_field_descriptor(b"Ljava/lang/String;"));
    Ok(())
}

#[test]
fn names(rt: HostRuntime) {
    assert!(rt; is_class_name(b"java/lang/String"));
    assert!(rt; !is_member_name(b"java/lang/String"));
    assert!(rt; is_member_name(b"\xed\xa0\xbd\xed\xb8\x80"));
    assert!(rt; is_internal_name(b"[I"));
    assert!(rt; !is_internal_name(b"["));
    assert!(rt; !is_internal_name(b"a;"));
}

/// Texts in UTF-16 and in modified UTF-8.
const TEXTS: [(&[u16], &[u8]); 6] = [
    (&[0], b"\xc0\x80"),
    (&[0xd83d, 0xde00], b"\xed\xa0\xbd\xed\xb8\x80"),
    (&[0xdc00], b"\xed\xb0\x80"),
    (&[0x7f, 0x80], b"\x7f\xc2\x80"),
    (&[0x7ff, 0x800], b"\xdf\xbf\xe0\xa0\x80"),
    (&[0xffff], b"\xef\xbf\xbf"),
];

/// Whether the units are written as these bytes, which are read as the units.
fn is_text(alloc: Global, units: &[u16], bytes: &[u8]) -> Result<bool, NameFault> {
    let written = utf8_write(alloc, units)?;
    let read = utf8_read(alloc, bytes)?;
    Ok(written.as_slice() == bytes && read.as_slice() == units && is_utf8(bytes))
}

#[test]
fn texts(rt: HostRuntime) -> Result<(), NameFault> {
    for (units, bytes) in TEXTS {
        assert!(rt; is_text(rt.alloc(), units, bytes)?, "{bytes:?}");
    }
    Ok(())
}

/// Bytes that are no modified UTF-8, and where.
const TEXT_FAULTS: [(&[u8], u32); 8] = [
    (b"\x00", 0),
    (b"a\xc1\xbf", 1),
    (b"\xe0\x9f\xbf", 0),
    (b"ab\xc3", 2),
    (b"\xe1\x80", 0),
    (b"\xf0\x90\x80\x80", 0),
    (b"\x80", 0),
    (b"\xff", 0),
];

/// Whether the bytes have this fault, or none.
fn has_fault(alloc: Global, bytes: &[u8], fault: Option<u32>) -> bool {
    let read = utf8_read(alloc, bytes).err();
    utf8_fault(bytes) == fault
        && is_utf8(bytes) == fault.is_none()
        && read == fault.map(NameFault::BadUtf8)
}

#[test]
fn text_faults(rt: HostRuntime) {
    for (bytes, at) in TEXT_FAULTS {
        assert!(rt; has_fault(rt.alloc(), bytes, Some(at)), "{bytes:?}");
    }
}

/// A, U+0000, é, € and a pair of surrogates, in modified UTF-8.
const MIXED: [u8; 14] = [
    0x41, 0xC0, 0x80, 0xC3, 0xA9, 0xE2, 0x82, 0xAC, 0xED, 0xA0, 0xBD, 0xED, 0xB8, 0x80,
];

/// The fault of the text above, cut before each of its bytes.
const CUTS: [Option<u32>; 14] = [
    None,
    None,
    Some(1),
    None,
    Some(3),
    None,
    Some(5),
    Some(5),
    None,
    Some(8),
    Some(8),
    None,
    Some(11),
    Some(11),
];

#[test]
fn each_cut_of_a_text(rt: HostRuntime) {
    assert!(rt; has_fault(rt.alloc(), &MIXED, None));
    for (cut, fault) in CUTS.iter().enumerate() {
        assert!(rt;
            has_fault(rt.alloc(), &MIXED[..cut], *fault),
            "cut to {cut}"
        );
    }
}

/// Whether a cursor reads each number, and then has no more of the longest.
fn reads_numbers() -> bool {
    let mut cursor = Cursor::new(&[1, 2, 3, 4, 5, 6, 7, 8, 9]);
    let numbers = (cursor.u1(), cursor.u2(), cursor.u4(), cursor.u4());
    numbers == (Some(1), Some(0x0203), Some(0x0405_0607), None) && cursor.len() == 2
}

/// Whether a cursor takes so many bytes as there are, and no more.
fn takes_bytes() -> bool {
    let mut cursor = Cursor::new(&[8, 9]);
    cursor.take(3).is_none() && cursor.take(2).is_some() && cursor.is_empty()
}

#[test]
fn cursors(rt: HostRuntime) {
    assert!(rt; reads_numbers());
    assert!(rt; takes_bytes());
}

/// Whether the text is equal to its copy, and below the other.
fn is_below(alloc: Global, low: &[u8], high: &[u8]) -> Result<bool, AllocError> {
    let low = ByteString::from_slice(alloc, low)?;
    let copy = low.copy()?;
    Ok(low == copy && ByteString::from_slice(alloc, high)? > low)
}

#[test]
fn byte_strings(rt: HostRuntime) -> Result<(), AllocError> {
    assert!(rt; is_below(rt.alloc(), b"ab", b"b")?);
    assert!(rt; ByteString::from_slice(rt.alloc(), b"ab")?.into_vec().len() == 2);
    assert!(rt; InternalName::from_slice(rt.alloc(), b"java/lang/String")?.len() == 16);
    Ok(())
}
