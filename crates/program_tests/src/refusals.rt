//! One input for each refusal, with its line.

use aj_outside::Name;
use program_runs::classes::{ASPECT, C, D};
use program_runs::runs::{Outcome, is_refused, weave, weave_files};
use std::alloc::{AllocError, Global};
use std::test::Fail;

/// The bytes with these ones at these places.
fn changed(alloc: Global, bytes: &[u8], changes: &[(usize, u8)]) -> Result<Vec<u8>, AllocError> {
    let mut changed = Vec::from_slice(alloc, bytes)?;
    for (place, byte) in changes {
        if let Some(found) = changed.get_mut(*place) {
            *found = *byte;
        }
    }
    Ok(changed)
}

/// Weaves C with these bytes at these places, as the only file.
fn weave_changed(alloc: Global, changes: &[(usize, u8)]) -> Result<Outcome, AllocError> {
    let class = changed(alloc, &C, changes)?;
    weave(alloc, &[("in/a/C.class", class.as_slice())])
}

/// What is changed in C, and what is said of it.
type Case<'a> = (&'a [(usize, u8)], &'a str);

/// Whether C so changed is refused with this line.
fn names_fault(alloc: Global, case: Case<'_>) -> Result<bool, AllocError> {
    let left = weave_changed(alloc, case.0)?;
    Ok(is_refused(&left, case.1, 1))
}

/// Class files with a fault.
const CLASS_FAULTS: [Case<'static>; 23] = [
    (&[(0, 0)], "refused: a/C.class magic\n"),
    (&[(7, 45)], "refused: a/C.class version 45\n"),
    (&[(7, 50)], "refused: a/C.class version 50\n"),
    (&[(6, 1), (7, 0)], "refused: a/C.class version 256\n"),
    // The tag of an entry, and the index in one.
    (&[(10, 2)], "refused: a/C.class pool-tag 1 2\n"),
    (&[(200, 19)], "refused: a/C.class pool-tag 23 19\n"),
    (&[(16, 2)], "refused: a/C.class pool-ref 2\n"),
    (&[(199, 20)], "refused: a/C.class pool-ref 22\n"),
    // An index of 0, the class itself, its superclass, and the name of a method.
    (&[(9, 0)], "refused: a/C.class pool-ref 0\n"),
    (&[(210, 3)], "refused: a/C.class pool-ref 3\n"),
    (&[(212, 3)], "refused: a/C.class pool-ref 3\n"),
    (&[(222, 8)], "refused: a/C.class pool-ref 8\n"),
    // A byte of a text.
    (&[(13, 0)], "refused: a/C.class utf8 1\n"),
    // The length of a Code, by its third byte and its last, and that of its code.
    (&[(231, 1)], "refused: a/C.class truncated 286\n"),
    (&[(232, 20)], "refused: a/C.class attribute-length 229\n"),
    (&[(232, 22)], "refused: a/C.class attribute-length 229\n"),
    (&[(240, 10)], "refused: a/C.class attribute-length 229\n"),
    // An opcode, an operand, a cut instruction, and a place where the code would run out.
    (&[(241, 186)], "refused: a/C.class code 0 0\n"),
    (&[(245, 11)], "refused: a/C.class code 0 3\n"),
    (&[(249, 184)], "refused: a/C.class code 0 8\n"),
    (&[(276, 186)], "refused: a/C.class code 1 0\n"),
    (&[(276, 202)], "refused: a/C.class code 1 0\n"),
    // The first of two.
    (
        &[(7, 50), (10, 2), (276, 186)],
        "refused: a/C.class version 50\n",
    ),
];

#[test]
fn faults_of_class_files(rt: HostRuntime) -> Result<(), Fail> {
    for case in CLASS_FAULTS {
        assert!(rt; names_fault(rt.alloc(), case)?, "{}", case.1);
    }
    Ok(())
}

/// Whether C cut to this length is refused so.
fn names_cut(alloc: Global, length: usize) -> Result<bool, AllocError> {
    let bytes = Vec::from_slice(alloc, &C)?;
    let left = weave(
        alloc,
        &[("in/C.class", bytes.as_slice().get(..length).unwrap_or(&C))],
    )?;
    let line = format!(in alloc; "refused: C.class truncated {length}\n")?;
    Ok(is_refused(&left, line.as_str(), 1))
}

#[test]
fn each_cut_and_a_byte_more(rt: HostRuntime) -> Result<(), Fail> {
    for length in 0..C.len() {
        assert!(rt; names_cut(rt.alloc(), length)?, "cut to {length}");
    }
    let mut more = Vec::from_slice(rt.alloc(), &C)?;
    more.push(0)?;
    let left = weave(rt.alloc(), &[("in/C.class", more.as_slice())])?;
    assert!(rt; is_refused(&left, "refused: C.class trailing 286\n", 1));
    Ok(())
}

/// Whether C with this byte at this place is woven or refused, and a refusal prints one line and writes
/// nothing.
fn is_answered(alloc: Global, place: usize, byte: u8) -> Result<bool, AllocError> {
    let left = weave_changed(alloc, &[(place, byte)])?;
    let printed = left.printed.bytes();
    let status = left.status;
    Ok(match status {
        0 => left.shelf.len() == 2 && printed.is_empty(),
        1 => left.shelf.len() == 1 && printed.starts_with(b"refused: "),
        _ => false,
    })
}

#[test]
fn each_changed_byte_is_answered(rt: HostRuntime) -> Result<(), Fail> {
    for place in 0..C.len() {
        assert!(rt; is_answered(rt.alloc(), place, 0)?, "0 at {place}");
        assert!(rt; is_answered(rt.alloc(), place, 255)?, "255 at {place}");
    }
    Ok(())
}

/// Classes with a fault beside the library.
const WORLD_FAULTS: [Case<'static>; 5] = [
    // A class that extends itself.
    (&[(212, 2)], "refused: C circle\n"),
    // `ajc$` in the name of a method, of a class that is named, of a member and in a descriptor.
    (
        &[(203, b'a'), (204, b'j'), (205, b'c'), (206, b'$')],
        "refused: C reserved\n",
    ),
    (
        &[(77, b'a'), (78, b'j'), (79, b'c'), (80, b'$')],
        "refused: C reserved\n",
    ),
    (
        &[(105, b'a'), (106, b'j'), (107, b'c'), (108, b'$')],
        "refused: C reserved\n",
    ),
    (
        &[(49, b'a'), (50, b'j'), (51, b'c'), (52, b'$')],
        "refused: C reserved\n",
    ),
];

#[test]
fn faults_of_one_class(rt: HostRuntime) -> Result<(), Fail> {
    for case in WORLD_FAULTS {
        assert!(rt; names_fault(rt.alloc(), case)?, "{}", case.1);
    }
    // java.lang.System as an interface.
    let mut class = Vec::from_slice(rt.alloc(), &C[..213])?;
    class.extend_from_slice(&[0, 1, 0, 9])?;
    class.extend_from_slice(&C[215..])?;
    let left = weave(rt.alloc(), &[("in/C.class", class.as_slice())])?;
    assert!(rt; is_refused(&left, "refused: C final-super\n", 1));
    Ok(())
}

#[test]
fn classes_beside_an_aspect(rt: HostRuntime) -> Result<(), Fail> {
    // C with an instance method is built without an aspect alone.
    let class = changed(rt.alloc(), &C, &[(220, 1)])?;
    let left = weave(rt.alloc(), &[("in/C.class", class.as_slice())])?;
    assert_eq!(rt; left.status, 0);
    let left = weave(
        rt.alloc(),
        &[("in/C.class", class.as_slice()), ("in/T.aj", ASPECT)],
    )?;
    assert!(rt; is_refused(&left, "refused: C.class not-built\n", 2));
    // So is a file of more than 65,536 bytes.
    let left = weave_long(rt.alloc(), 65_536)?;
    assert_eq!(rt; left.status, 0);
    let left = weave_long(rt.alloc(), 65_537)?;
    assert!(rt; is_refused(&left, "refused: C.class not-built\n", 2));
    Ok(())
}

/// Weaves C, with a text more in its pool that makes its file so long, beside the aspect.
fn weave_long(alloc: Global, length: usize) -> Result<Outcome, AllocError> {
    let text = length.saturating_sub(C.len() + 3);
    let mut class = changed(alloc, &C[..207], &[(9, 25)])?;
    class.push(1)?;
    class.extend_from_slice(&u16::try_from(text).unwrap_or(0).to_be_bytes())?;
    for _ in 0..text {
        class.push(b'x')?;
    }
    class.extend_from_slice(&C[207..])?;
    weave(
        alloc,
        &[("in/C.class", class.as_slice()), ("in/T.aj", ASPECT)],
    )
}

/// Whether these files are refused with this line, and stay as they are.
fn names(alloc: Global, named: &[(&str, &[u8])], line: &str) -> Result<bool, AllocError> {
    let left = weave(alloc, named)?;
    Ok(is_refused(&left, line, named.len()))
}

#[test]
fn the_first_file_that_is_not_built(rt: HostRuntime) -> Result<(), Fail> {
    let alloc = rt.alloc();
    // Two aspects, and an aspect with the name of a class.
    let named: [(&str, &[u8]); 2] = [("in/C.aj", ASPECT), ("in/D.aj", ASPECT)];
    assert!(rt; names(alloc, &named, "refused: D.aj not-built\n")?);
    let named: [(&str, &[u8]); 2] = [
        (
            "in/a.aj",
            b"aspect D { before(): call(void C.m()) { System.out.println(\"a\"); } }",
        ),
        ("in/b.class", &D),
    ];
    assert!(rt; names(alloc, &named, "refused: a.aj not-built\n")?);
    let named: [(&str, &[u8]); 1] = [("in/a/b.aj", b"aspect T { before() call(void C.m()) { } }")];
    assert!(rt; names(alloc, &named, "refused: a/b.aj not-built\n")?);
    Ok(())
}

#[test]
fn the_first_class_file_that_is_none(rt: HostRuntime) -> Result<(), Fail> {
    let alloc = rt.alloc();
    let mut bad = C;
    bad[0] = 0;
    // A class that extends itself.
    let mut own = C;
    own[212] = 2;
    // It comes before faults of the classes and files that aren't built.
    let named: [(&str, &[u8]); 3] = [("in/A.class", &own), ("in/B.aj", b""), ("in/C.class", &bad)];
    assert!(rt; names(alloc, &named, "refused: C.class magic\n")?);
    assert!(rt; names(alloc, &named[..2], "refused: C circle\n")?);
    // Of two the first is named.
    let named: [(&str, &[u8]); 2] = [("in/A.class", &C[..9]), ("in/B.class", &bad)];
    assert!(rt; names(alloc, &named, "refused: A.class truncated 9\n")?);
    Ok(())
}

#[test]
fn a_big_file_comes_first(rt: HostRuntime) -> Result<(), Fail> {
    let alloc = rt.alloc();
    let big = vec![in alloc; 0; 16_777_217]?;
    let named: [(&str, &[u8]); 3] = [
        ("in/A.class", b"none"),
        ("in/B.txt", big.as_slice()),
        ("in/C.aj", big.as_slice()),
    ];
    let left = weave(alloc, &named)?;
    assert!(rt; is_refused(&left, "refused: C.aj big-file\n", 3));
    // One byte less is no class file.
    let named: [(&str, &[u8]); 1] = [("in/C.class", &big.as_slice()[1..])];
    let left = weave(alloc, &named)?;
    assert!(rt; is_refused(&left, "refused: C.class magic\n", 1));
    Ok(())
}

/// Weaves so many files that are neither of a class nor of an aspect, and one that is no class.
fn weave_many(alloc: Global, count: u32) -> Result<Outcome, AllocError> {
    let mut files = Vec::new(alloc);
    files.push((Name::from_str(alloc, "in/C.class")?, Vec::new(alloc)))?;
    for n in 0..count {
        let name = format!(in alloc; "in/{n}")?;
        files.push((Name::from_string(name), Vec::new(alloc)))?;
    }
    weave_files(alloc, files)
}

#[test]
fn many_files_come_first(rt: HostRuntime) -> Result<(), Fail> {
    let left = weave_many(rt.alloc(), 65_536)?;
    assert!(rt; is_refused(&left, "refused: many-files\n", 65_537));
    let left = weave_many(rt.alloc(), 65_535)?;
    assert!(rt; is_refused(&left, "refused: C.class truncated 0\n", 65_536));
    Ok(())
}
