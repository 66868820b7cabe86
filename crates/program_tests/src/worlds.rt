//! Folders whose classes have a fault together, one input for each fault with its line, and a folder of
//! classes that stand on one another. The classes are written as class text.

use aj_outside::Name;
use program_runs::classes::{ASPECT, C};
use program_runs::runs::{Outcome, holds, is_refused, leaves, weave_files};
use program_runs::texts::{class_file, files_of};
use std::alloc::{AllocError, Global};
use std::test::Fail;

/// Weaves these classes.
fn weave_classes(alloc: Global, classes: &[&str]) -> Result<Outcome, AllocError> {
    let files = files_of(alloc, classes)?;
    weave_files(alloc, files)
}

/// Whether these classes are refused with this line.
fn refuses(alloc: Global, classes: &[&str], line: &str) -> Result<bool, AllocError> {
    let left = weave_classes(alloc, classes)?;
    Ok(is_refused(&left, line, classes.len()))
}

/// Classes, and the line with which they are refused.
type Case = (&'static [&'static str], &'static str);

const C_ALONE: &str = "class C super java/lang/Object version 48";

const QA: &str = "class q/r/A super java/lang/Object version 48";

const QB: &str = "class q/r/B super java/lang/Object version 48";

const STRING: &str = "class java/lang/String super java/lang/Object version 48";

const GONE: &str = "class A super Gone version 48";

/// The least name counts, and duplicates come before any other fault.
const DUPLICATES: [Case; 5] = [
    (&[C_ALONE, C_ALONE], "refused: C duplicate\n"),
    (&[C_ALONE, STRING], "refused: java.lang.String duplicate\n"),
    (
        &[QB, QA, C_ALONE, QB, QA, C_ALONE],
        "refused: C duplicate\n",
    ),
    (&[QB, QA, QB, QA, C_ALONE], "refused: q.r.A duplicate\n"),
    (
        &[
            GONE,
            "class ajc$A super java/lang/Object version 48",
            C_ALONE,
            C_ALONE,
        ],
        "refused: C duplicate\n",
    ),
];

const KEPT: &str = "class p/xajc$ super java/lang/Object version 48";

/// A class that is named so, and one that names a class which isn't there, behind one whose superclass isn't
/// there.
const RESERVED: [Case; 2] = [
    (&[KEPT], "refused: p.xajc$ reserved\n"),
    (
        &[
            GONE,
            KEPT,
            "class B super java/lang/Object version 48 interface ajc$I",
        ],
        "refused: B reserved\n",
    ),
];

const Q_GONE: &str = "class q/B super p/Gone version 48";

/// The least class counts, and of it the superclass before the interfaces. The last case has a character
/// past U+FFFF, and a class that extends a final one.
const MISSING: [Case; 4] = [
    (&[Q_GONE], "refused: q.B missing-super p.Gone\n"),
    (
        &[
            Q_GONE,
            "class q/A super java/lang/Object version 48 interface java/lang/Runnable p/Y p/X",
        ],
        "refused: q.A missing-super p.Y\n",
    ),
    (
        &[Q_GONE, "class q/A super p/Z version 48 interface p/Y"],
        "refused: q.A missing-super p.Z\n",
    ),
    (
        &[
            "class A super java/lang/Object version 48 flags 49",
            "class B super A version 48",
            "class \u{1F600}/F super \u{1F600} version 48",
        ],
        "refused: \u{1F600}.F missing-super \u{1F600}\n",
    ),
];

const BELOW: &str = "class p/C super p/D version 48";

const LAST: &str = "class p/D super java/lang/Object version 48 flags 49";

/// The superclass is final, an interface, or a final one of the library; an interface is a class. The least
/// class counts, and this comes before a class that extends itself.
const FINAL: [Case; 6] = [
    (&[BELOW, LAST], "refused: p.C final-super\n"),
    (
        &[
            BELOW,
            "class p/D super java/lang/Object version 48 flags 1537",
        ],
        "refused: p.C final-super\n",
    ),
    (
        &["class p/C super java/lang/String version 48"],
        "refused: p.C final-super\n",
    ),
    (
        &[
            "class p/C super java/lang/Object version 48 interface p/D",
            "class p/D super java/lang/Object version 48",
        ],
        "refused: p.C final-super\n",
    ),
    (
        &[
            "class p/E super p/D version 48",
            BELOW,
            "class A super A version 48",
            LAST,
        ],
        "refused: p.C final-super\n",
    ),
    (
        &["class A super A version 48", BELOW, LAST],
        "refused: p.C final-super\n",
    ),
];

/// A class, three classes with one that leads to them, interfaces, and both.
const CIRCLES: [Case; 4] = [
    (&["class p/A super p/A version 48"], "refused: p.A circle\n"),
    (
        &[
            "class D super B version 48",
            "class C super D version 48",
            "class B super C version 48",
            "class A super D version 48",
        ],
        "refused: B circle\n",
    ),
    (
        &[
            "class J super java/lang/Object version 48 flags 1537 interface I",
            "class I super java/lang/Object version 48 flags 1537 interface J",
        ],
        "refused: I circle\n",
    ),
    (
        &[
            "class D super C version 48",
            "class C super java/lang/Object version 48 interface B",
            "class B super D version 48 flags 1537",
            "class A super D version 48",
        ],
        "refused: B circle\n",
    ),
];

#[test]
fn duplicates_and_reserved_names(rt: HostRuntime) -> Result<(), Fail> {
    for (classes, line) in DUPLICATES {
        assert!(rt; refuses(rt.alloc(), classes, line)?, "{line}");
    }
    for (classes, line) in RESERVED {
        assert!(rt; refuses(rt.alloc(), classes, line)?, "{line}");
    }
    Ok(())
}

#[test]
fn missing_and_final_supertypes(rt: HostRuntime) -> Result<(), Fail> {
    for (classes, line) in MISSING {
        assert!(rt; refuses(rt.alloc(), classes, line)?, "{line}");
    }
    for (classes, line) in FINAL {
        assert!(rt; refuses(rt.alloc(), classes, line)?, "{line}");
    }
    Ok(())
}

#[test]
fn circles(rt: HostRuntime) -> Result<(), Fail> {
    for (classes, line) in CIRCLES {
        assert!(rt; refuses(rt.alloc(), classes, line)?, "{line}");
    }
    Ok(())
}

/// Sound classes that stand on one another and on the library's, and the files that are written of them.
const SOUND: [(&str, &str); 4] = [
    ("class Below super q/Base version 48", "out/Below.class"),
    (
        "class q/Base super java/lang/Object version 48 interface java/lang/Runnable q/Shape",
        "out/q/Base.class",
    ),
    (
        "class q/Shape super java/lang/Object version 48 flags 1537 interface java/lang/Cloneable",
        "out/q/Shape.class",
    ),
    (
        "class q/Fault super java/lang/RuntimeException version 48",
        "out/q/Fault.class",
    ),
];

/// Whether the class was written as it is.
fn is_kept(alloc: Global, left: &Outcome, name: &str, text: &str) -> Result<bool, AllocError> {
    let bytes = class_file(alloc, text)?;
    Ok(holds(left, name, bytes.as_slice()))
}

#[test]
fn classes_on_one_another(rt: HostRuntime) -> Result<(), Fail> {
    let classes = [SOUND[0].0, SOUND[1].0, SOUND[2].0, SOUND[3].0];
    let left = weave_classes(rt.alloc(), &classes)?;
    assert!(rt; leaves(&left, 8, &[]));
    for (text, name) in SOUND {
        assert!(rt; is_kept(rt.alloc(), &left, name, text)?, "{name}");
    }
    Ok(())
}

/// These classes beside the class C, which is built, and an aspect.
fn weave_beside_an_aspect(alloc: Global, classes: &[&str]) -> Result<Outcome, AllocError> {
    let mut files = files_of(alloc, classes)?;
    let class = Vec::from_slice(alloc, &C)?;
    files.push((Name::from_str(alloc, "in/C.class")?, class))?;
    let aspect = Vec::from_slice(alloc, ASPECT)?;
    files.push((Name::from_str(alloc, "in/T.aj")?, aspect))?;
    weave_files(alloc, files)
}

#[test]
fn beside_an_aspect(rt: HostRuntime) -> Result<(), Fail> {
    let alloc = rt.alloc();
    // A sound class of another form isn't built there.
    let other = "class A super java/lang/Exception version 48";
    let left = weave_beside_an_aspect(alloc, &[other])?;
    assert!(rt; is_refused(&left, "refused: 0.class not-built\n", 3));
    // A fault of the classes comes before it.
    let gone = "class B super Gone version 48";
    let left = weave_beside_an_aspect(alloc, &[other, gone])?;
    assert!(rt; is_refused(&left, "refused: B missing-super Gone\n", 4));
    Ok(())
}
