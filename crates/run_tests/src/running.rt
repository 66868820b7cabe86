//! The command `run`: what is printed of a run, and what is refused before one.

use program_runs::classes::{ASPECT, C};
use program_runs::runs::{answers, holds, run, weave};
use std::alloc::{AllocError, Global};
use std::test::Fail;

/// A class, a script whose second line is no answer, one without answers, a file that is no class, and a
/// class that is there twice.
const FILES: [(&str, &[u8]); 6] = [
    ("in/C.class", &C),
    ("script", b"void\nnothing\n"),
    ("empty", b""),
    ("bad/x.class", b"none"),
    ("two/C.class", &C),
    ("two/x/C.class", &C),
];

const WHOLE: &str = "print \"m\\n\"\nreturned void\n";

/// The status, the words and what is printed. `main` calls `m`, which prints by the fourth step; the sixth is
/// the return of `main`. The script is judged before the classes, their files before the world that they
/// make, and the entry last.
const RUNS: [(u8, &str, &str); 15] = [
    (0, "run in C.main() 6", WHOLE),
    (0, "run in C.main() 6 empty", WHOLE),
    (0, "run in C.m() 18446744073709551615", WHOLE),
    (16, "run in C.main() 5", "print \"m\\n\"\nsteps-spent\n"),
    (16, "run in C.main() 4", "print \"m\\n\"\nsteps-spent\n"),
    (16, "run in C.main() 3", "steps-spent\n"),
    (16, "run in C.main() 0", "steps-spent\n"),
    (1, "run in C.none() 9 s", "refused: s no-script\n"),
    (1, "run bad C.main() 9 s", "refused: s no-script\n"),
    (1, "run bad C.main() 9 script", "refused: script script 2\n"),
    (1, "run bad C.main() 9", "refused: x.class magic\n"),
    (1, "run two C.none() 9", "refused: C duplicate\n"),
    (1, "run in C.none() 9", "refused: C.none() no-entry\n"),
    (1, "run in C.main(1) 9", "refused: C.main(1) no-entry\n"),
    (1, "run none p.C.m() 9", "refused: p.C.m() no-entry\n"),
];

/// Whether the words are answered so, and no file is written.
fn is_answered(alloc: Global, row: (u8, &str, &str)) -> Result<bool, AllocError> {
    let mut texts = Vec::new(alloc);
    for word in row.1.split_whitespace() {
        texts.push(word)?;
    }
    let left = run(alloc, texts.as_slice(), &FILES, &[], &[])?;
    Ok(answers(&left, row.0, row.2) && left.shelf.len() == FILES.len())
}

#[test]
fn runs_and_refusals(rt: HostRuntime) -> Result<(), Fail> {
    for row in RUNS {
        assert!(rt; is_answered(rt.alloc(), row)?, "{}", row.1);
    }
    Ok(())
}

/// Whether a run of the woven class prints the advice's text and then its own.
fn runs_woven(alloc: Global) -> Result<bool, AllocError> {
    let left = weave(alloc, &[("in/C.class", &C), ("in/T.aj", ASPECT)])?;
    let class = left.shelf.file("out/C.class").unwrap_or(b"");
    let aspect = left.shelf.file("out/T.class").unwrap_or(b"");
    let words = ["run", "out", "C.main()", "100"];
    let woven = [("out/C.class", class), ("out/T.class", aspect)];
    let left = run(alloc, &words, &woven, &[], &[])?;
    let text = "print \"a\\n\"\nprint \"m\\n\"\nreturned void\n";
    Ok(answers(&left, 0, text))
}

/// What a run with a script comes to where this call of the shelf and this one of the sink fail: its status,
/// and whether it printed nothing and left the shelf as it was.
fn failing(alloc: Global, call: u64, print: u64) -> Result<(u8, bool), AllocError> {
    let words = ["run", "in", "C.main()", "6", "empty"];
    let left = run(alloc, &words, &FILES, &[call], &[print])?;
    let kept = left.shelf.len() == FILES.len() && holds(&left, "in/C.class", &C);
    Ok((left.status, kept && left.printed.bytes().is_empty()))
}

/// The list, the class and the script, each failing in turn; a fourth call is never made. Then the print.
const FAILING: [(u64, u64, (u8, bool)); 5] = [
    (1, 0, (3, true)),
    (2, 0, (3, true)),
    (3, 0, (3, true)),
    (4, 0, (0, false)),
    (0, 1, (5, true)),
];

#[test]
fn woven_and_failing_runs(rt: HostRuntime) -> Result<(), Fail> {
    assert!(rt; runs_woven(rt.alloc())?);
    for (call, print, wanted) in FAILING {
        assert!(rt;
            failing(rt.alloc(), call, print)? == wanted,
            "calls {call} and {print}"
        );
    }
    Ok(())
}
