use program_runs::classes::{ASPECT, C, C_WOVEN, D, SEVERAL, SEVERAL_WOVEN, T};
use program_runs::runs::{holds, leaves, run, weave};
use std::alloc::{AllocError, Global};
use std::test::Fail;

const OTHER: &[u8] = b"aspect T { before(): call(void C.n()) { System.out.println(\"a\"); } }";

#[test]
fn first_advice(rt: HostRuntime) -> Result<(), Fail> {
    let left = weave(
        rt.alloc(),
        &[
            ("in/C.class", &C),
            ("in/T.aj", ASPECT),
            ("in/notes.txt", b"x"),
        ],
    )?;
    let files: [(&str, &[u8]); 5] = [
        ("in/C.class", &C),
        ("in/T.aj", ASPECT),
        ("in/notes.txt", b"x"),
        ("out/C.class", &C_WOVEN),
        ("out/T.class", &T),
    ];
    assert!(rt; leaves(&left, 5, &files));
    Ok(())
}

/// Whether the class under the aspect is written so, under this name, beside the aspect's class.
fn weaves(
    alloc: Global,
    class: &[u8],
    aspect: &[u8],
    name: &str,
    woven: &[u8],
) -> Result<bool, AllocError> {
    let left = run(
        alloc,
        &["weave", "in", "o/p"],
        &[("in/a/X.class", class), ("in/T.aj", aspect)],
        &[],
        &[],
    )?;
    Ok(left.status == 0 && left.shelf.len() == 4 && holds(&left, name, woven))
}

#[test]
fn calls_and_untouched_classes(rt: HostRuntime) -> Result<(), Fail> {
    let alloc = rt.alloc();
    assert!(rt; weaves(alloc, &SEVERAL, ASPECT, "o/p/C.class", &SEVERAL_WOVEN)?);
    assert!(rt; weaves(alloc, &C, OTHER, "o/p/C.class", &C)?);
    assert!(rt; weaves(alloc, &D, ASPECT, "o/p/D.class", &D)?);
    assert!(rt; leaves(&weave(alloc, &[])?, 0, &[]));
    Ok(())
}

/// What a run comes to where this call fails: its status, how many files there are, and whether the class
/// was written.
fn failing(alloc: Global, call: u64) -> Result<(u8, usize, bool), AllocError> {
    let named: [(&str, &[u8]); 2] = [("in/C.class", &C), ("in/T.aj", ASPECT)];
    let left = run(alloc, &["weave", "in", "out"], &named, &[call], &[])?;
    let written = left.shelf.file("out/C.class").is_some();
    Ok((left.status, left.shelf.len(), written))
}

/// The list, two reads and two writes, each failing in turn; a sixth call is never made.
const FAILING: [(u64, (u8, usize, bool)); 6] = [
    (1, (3, 2, false)),
    (2, (3, 2, false)),
    (3, (3, 2, false)),
    (4, (4, 2, false)),
    (5, (4, 3, true)),
    (6, (0, 4, true)),
];

#[test]
fn failing_outside(rt: HostRuntime) -> Result<(), Fail> {
    for (call, wanted) in FAILING {
        assert!(rt; failing(rt.alloc(), call)? == wanted, "call {call}");
    }
    Ok(())
}

#[test]
fn failing_prints(rt: HostRuntime) -> Result<(), Fail> {
    for texts in [["weave", "in", "out"].as_slice(), &[]] {
        let left = run(rt.alloc(), texts, &[("in/C.class", b"none")], &[], &[1])?;
        assert!(rt; left.status == 5);
    }
    Ok(())
}

/// Words that are no command.
const NO_COMMANDS: [&[&str]; 13] = [
    &[],
    &["weave"],
    &["weave", "in"],
    &["weave", "in", "out", "x"],
    &["weave", "", "out"],
    &["weave", "in", "-o"],
    &["Weave", "in", "out"],
    &["--help"],
    &["run", "in", "C.main()"],
    &["run", "in", "C.main", "6"],
    &["run", "in", "C.main()", "06"],
    &["run", "in", "C.main()", "18446744073709551616"],
    &["run", "in", "C.main()", "6", "s", "x"],
];

const USAGE: &[u8] =
    b"usage: ajweave weave IN OUT | check IN | shadows IN | run IN ENTRY STEPS [SCRIPT] | sample SEED CLASSES\n";

#[test]
fn usage(rt: HostRuntime) -> Result<(), Fail> {
    for texts in NO_COMMANDS {
        let left = run(rt.alloc(), texts, &[("in/C.class", &C)], &[], &[])?;
        assert_eq!(rt; left.status, 2);
        assert_eq!(rt; left.printed.bytes(), USAGE);
        assert_eq!(rt; left.shelf.len(), 1);
    }
    Ok(())
}

#[test]
fn other_files_are_passed_over(rt: HostRuntime) -> Result<(), Fail> {
    for name in ["in/x.txt", "C.class"] {
        let left = weave(rt.alloc(), &[(name, b"none")])?;
        assert!(rt; leaves(&left, 1, &[(name, b"none")]), "{name}");
    }
    Ok(())
}

#[test]
fn classes_without_an_aspect(rt: HostRuntime) -> Result<(), Fail> {
    // Class E, by the one letter of C's name.
    let mut e = C;
    e[13] = b'E';
    // D has an unused and a repeated pool entry.
    let left = weave(
        rt.alloc(),
        &[("in/C.class", &C), ("in/a/D.class", &D), ("in/b.class", &e)],
    )?;
    let files: [(&str, &[u8]); 3] = [
        ("out/C.class", &C),
        ("out/D.class", &D),
        ("out/E.class", &e),
    ];
    assert!(rt; leaves(&left, 6, &files));
    Ok(())
}

#[test]
fn several_classes_under_an_aspect(rt: HostRuntime) -> Result<(), Fail> {
    let left = weave(
        rt.alloc(),
        &[("in/C.class", &C), ("in/D.class", &D), ("in/T.aj", ASPECT)],
    )?;
    let files: [(&str, &[u8]); 3] = [
        ("out/C.class", &C_WOVEN),
        ("out/D.class", &D),
        ("out/T.class", &T),
    ];
    assert!(rt; leaves(&left, 6, &files));
    Ok(())
}

/// U+1F600 in modified UTF-8 (JVMS 4.4.7), with the two bytes of its length.
const FACE: [u8; 8] = [0, 6, 0xED, 0xA0, 0xBD, 0xED, 0xB8, 0x80];

#[test]
fn a_name_past_the_basic_plane(rt: HostRuntime) -> Result<(), Fail> {
    let mut class = Vec::from_slice(rt.alloc(), &C[..11])?;
    class.extend_from_slice(&FACE)?;
    class.extend_from_slice(&C[14..])?;
    let left = weave(rt.alloc(), &[("in/x.class", class.as_slice())])?;
    let name = "out/\u{1F600}.class";
    assert!(rt; leaves(&left, 2, &[(name, class.as_slice())]));
    Ok(())
}
